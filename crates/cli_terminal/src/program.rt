// Which of the two programs says something: the bank's or the customer's. Nothing but words hangs on it.
#[derive(Clone, Copy, Debug, PartialEq, Eq)]
pub enum Program {
    Lentilpot,
    Bureau,
}
