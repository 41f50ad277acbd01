// Made by scripts/pages from docs/commands: change that and not this. What the program prints for help.
#![tactic(auto)]

use cli_terminal::options::Words;
use cli_terminal::program::Program;
use cli_terminal::say;
use cli_terminal::status::Told;

// The commands, in the order of the list.
#[derive(Clone, Copy, Debug, PartialEq, Eq)]
pub enum Command {
    Setup,
    Add,
    Key,
    Order,
    Receive,
    Show,
    Explain,
    Help,
}

// The command of a number in the order of the list, from 1; of every other number the last.
impl From<u32> for Command {
    fn from(number: u32) -> Command {
        match number {
            1 => Command::Setup,
            2 => Command::Add,
            3 => Command::Key,
            4 => Command::Order,
            5 => Command::Receive,
            6 => Command::Show,
            7 => Command::Explain,
            _ => Command::Help,
        }
    }
}

// The command that a word names.
pub fn command_of(word: &[u8]) -> Option<Command> {
    match word {
        b"setup" => Some(Command::Setup),
        b"add" => Some(Command::Add),
        b"key" => Some(Command::Key),
        b"order" => Some(Command::Order),
        b"receive" => Some(Command::Receive),
        b"show" => Some(Command::Show),
        b"explain" => Some(Command::Explain),
        b"help" => Some(Command::Help),
        _ => None,
    }
}

// The commands' names, for the line that says what was expected.
pub fn tell_names(rt: &HostRuntime) {
    say::expected(
        rt,
        Program::Lentilpot,
        b"COMMAND",
        b"setup, add, key, order, receive, show, explain or help",
    );
}

// The words of a command, or of its number, as the end of a line.
pub fn words_of<C: Into<Command>>(command: C) -> &'static [u8] {
    match command.into() {
        Command::Setup => b"setup TABLE BANK QUALIFIER SOFTWARE FLOOR K V [HOLIDAYS]\n",
        Command::Add =>
            b"add TABLE DATE IDENTITY QUALIFIER PART1 PART2 CHECK GENERATION TYPES AGREED LEAVE [LENGTH] [--later]\n",
        Command::Key =>
            b"key TABLE DATE IDENTITY QUALIFIER PART1 PART2 CHECK GENERATION [--later]\n",
        Command::Order => b"order TABLE DATE IDENTITY QUALIFIER CLOCK [--later]\n",
        Command::Receive =>
            b"receive TABLE DATE TIME TYPE CLOCK FILE REPLIES [READ] [--explain] [--later]\n",
        Command::Show => b"show TABLE [IDENTITY QUALIFIER]\n",
        Command::Explain => b"explain REPLIES\n",
        Command::Help => b"help [COMMAND]\n",
    }
}

// The same, to standard error.
pub fn tell_words<C: Into<Command>>(rt: &HostRuntime, command: C) {
    say::err(rt, words_of(command));
}

// Whether there are as many words as the command takes, or what was expected.
pub fn are_as_many<C: Into<Command>>(
    rt: &HostRuntime,
    words: &Words,
    command: C,
    low: usize,
    high: usize,
) -> Result<(), Told> {
    let command = command.into();
    let are_so = words.are_as_many(rt, Program::Lentilpot, low, high);
    if are_so.is_err() {
        tell_words(rt, command);
    }
    are_so
}

// The help of one command, or of its number.
pub fn of<C: Into<Command>>(command: C) -> &'static [u8] {
    match command.into() {
        Command::Setup =>
            b"usage: lentilpot setup TABLE BANK QUALIFIER SOFTWARE FLOOR K V [HOLIDAYS]

Sets up a bank's table.
TABLE is the name of a new file. A table is never replaced: its used stamps
would be forgotten. The settings can't be changed later.

  TABLE         the bank's file, made by setup
                The bank's settings and customers, with keys and used stamps:
                49,152 bytes that only their owner can read. Keep it on a disk
                of the one machine that receives. Name the file itself, not a
                link to it. Every command names the bank's one table. Never put
                an older copy in its place: it has forgotten stamps, and what
                was paid could be paid again.
  BANK          up to 17 of A-Z, 0-9, blank and %()*+,-./:;<=>
                The bank's identity. A message must name it and QUALIFIER as
                its receiver (else E 1021). Take what the customers were given,
                not all blank. It can't be changed later. One table for each
                bank: a second one would not know the stamps of the first.
  QUALIFIER     up to 8 of them, \"\" for a blank one
                The second part of the bank's or the customer's name. It
                counts: with another qualifier it is another name. Leave it
                blank, unless the bank tells systems or keys apart by it. It
                may stand with any number of identities.
  SOFTWARE      up to 16 of them
                The name and release of the bank's software, which stands in
                every reply. Any that isn't all blank. It can't be changed
                later. It may be the same at every bank.
  FLOOR         110 or 120: the lowest version of PATU that is taken
                A message of a lower version is refused (E 1012), and so is one
                of 111 to 119. Newer ones, 121 to 999, are read by the fields
                of 120. Take 110 while any customer sends version 110, else
                120. It can't be changed later. It may be the same at every
                bank.
  K             16 hex digits, 0-9 and A-F: random, secret, used once
                The key of the key maker, which makes the working keys. Who
                knows K and V can work these out. Make it at random:
                'od -An -N8 -tx1 /dev/urandom | tr -d \" \" | tr a-f A-F'. It has
                no parity. Keep it nowhere else: the table has it. Never use it
                again, for another table or for anything else.
  V             16 hex digits, 0-9 and A-F: random, secret, used once
                The first seed of the key maker. It moves on with every key
                that is made, and the table has it. Make it at random like K,
                and apart from it. Never use it again, not even for a table
                that takes this one's place.
  HOLIDAYS      a file, one yymmdd a line
                The days from Monday to Friday that are no banking days: a
                stamp may be five banking days old. List at most 200, rising,
                for all the years that the table is to serve: they can't be
                changed later. Without the file there are none. No day stands
                twice. The same file may serve several banks.

K and V may be '-', the next line of standard input, or '@NAME', the first line
of the file NAME: then no list of processes shows the digits. What is typed at
'-' is seen on the screen, unless 'stty -echo' comes before and 'stty echo'
after.

  --help        prints the help: after a command its own, in place of a command
                the whole
  --            ends the options, for a word that begins with two dashes
",
        Command::Add =>
            b"usage: lentilpot add TABLE DATE IDENTITY QUALIFIER PART1 PART2 CHECK GENERATION
           TYPES AGREED LEAVE [LENGTH] [--later]

Adds a customer, with the first transport key.
The first working key, generation 0, is made from the transport key. There is
room for 32 customers. No command removes one.

  TABLE         the bank's file, made by setup
  DATE          today, yymmdd
                The bank's day. The table keeps it and can't go back: an
                earlier one is refused (4). A stamp after it is refused
                (E 1016), and one more than five banking days before it
                (E 1015). Take it from a clock that is right, as 'date +%y%m%d'
                prints it. The years are 1980 to 2079. The first after setup
                may be any; later ones need --later where they are more than 31
                days after the table's day. It is the same all day.
  IDENTITY      up to 17 of A-Z, 0-9, blank and %()*+,-./:;<=>
                The customer's identity. With QUALIFIER it is the customer's
                name in every message. Take what the bank gave the customer,
                not all blank. With another QUALIFIER it is another customer,
                with keys and stamps of its own.
  QUALIFIER     up to 8 of them, \"\" for a blank one
                The second part of the bank's or the customer's name. It
                counts: with another qualifier it is another name. Leave it
                blank, unless the bank tells systems or keys apart by it. It
                may stand with any number of identities.
  PART1, PART2  16 hex digits each: the two parts of the transport key
                The bank makes the key and sends it in two letters, a part in
                each. Joined by XOR they are the key. Copy them without blanks,
                each part by another person. Each byte has odd parity, which
                shows many a slip (refused 8). Never use a part again: each
                customer and each generation has its own two.
  CHECK         6 hex digits: the check value of the transport key
                It shows whether both parts were copied rightly (else
                refused 9). It is no secret. Copy it from the letter with the
                second part. Each key has its own.
  GENERATION    one digit: the generation of the transport key
                The number that the letters and the messages give the key. For
                add it is 0 with a customer's first key, else what the letters
                say. For key it is the next one (else refused 10): 1 follows 0
                and 9. 'show' tells the current one. It comes round after 9,
                and 0 never comes again.
  TYPES         the data types that the customer may send: 1,3,16, or - for
                none
                A batch that is received under another TYPE is refused
                (E 1025). Take them from the agreement. They can't be changed
                later. They may be the same for any number of customers.
  AGREED        yes or no: whether the use of PATU is agreed
                With no the customer is known, and every message is refused
                (E 1035). Add the customer with yes once it is agreed: no
                command makes a yes of a no. It may be the same for any number
                of customers.
  LEAVE         yes or no: whether the customer may ask for working keys
                With no a message that asks for one is accepted and gets none
                (K 1004). 'order' doesn't look at it. Take it from the
                agreement. It can't be changed later. It may be the same for
                any number of customers.
  LENGTH        days of a changeover, 1 to 60; 30 where it is left out
                For so many calendar days after a new key's first the one
                before it stays good, transport and working keys alike, and no
                further one is made. Take more days than the customer ever lets
                pass between two files, and than letters take: past them the
                old key is refused (E 1013, E 1014), and a working key comes
                only with a reply. It can't be changed later. It may be the
                same for any number of customers.

PART1, PART2 and CHECK may be '-', the next line of standard input, or '@NAME',
the first line of the file NAME: then no list of processes shows the digits.
What is typed at '-' is seen on the screen, unless 'stty -echo' comes before
and 'stty echo' after.

  --later       DATE is more than 31 days after the table's day, and meant so:
                the table can't go back
  --help        prints the help: after a command its own, in place of a command
                the whole
  --            ends the options, for a word that begins with two dashes
",
        Command::Key =>
            b"usage: lentilpot key TABLE DATE IDENTITY QUALIFIER PART1 PART2 CHECK GENERATION
           [--later]

Enters a customer's next transport key.
The key before it stays good for stamps up to the end of the changeover (LENGTH
in 'add'), those from before DATE too; for later ones it isn't (E 1013). Until
that is past no further one is taken (refused 12). The working keys stay as
they are.

  TABLE         the bank's file, made by setup
  DATE          today, yymmdd
  IDENTITY      up to 17 of A-Z, 0-9, blank and %()*+,-./:;<=>
  QUALIFIER     up to 8 of them, \"\" for a blank one
  PART1, PART2  16 hex digits each: the two parts of the transport key
                The bank makes the key and sends it in two letters, a part in
                each. Joined by XOR they are the key. Copy them without blanks,
                each part by another person. Each byte has odd parity, which
                shows many a slip (refused 8). Never use a part again: each
                customer and each generation has its own two.
  CHECK         6 hex digits: the check value of the transport key
                It shows whether both parts were copied rightly (else
                refused 9). It is no secret. Copy it from the letter with the
                second part. Each key has its own.
  GENERATION    one digit: the generation of the transport key
                The number that the letters and the messages give the key. For
                add it is 0 with a customer's first key, else what the letters
                say. For key it is the next one (else refused 10): 1 follows 0
                and 9. 'show' tells the current one. It comes round after 9,
                and 0 never comes again.

PART1, PART2 and CHECK may be '-', the next line of standard input, or '@NAME',
the first line of the file NAME: then no list of processes shows the digits.
What is typed at '-' is seen on the screen, unless 'stty -echo' comes before
and 'stty echo' after.

  --later       DATE is more than 31 days after the table's day, and meant so:
                the table can't go back
  --help        prints the help: after a command its own, in place of a command
                the whole
  --            ends the options, for a word that begins with two dashes
",
        Command::Order => b"usage: lentilpot order TABLE DATE IDENTITY QUALIFIER CLOCK [--later]

Orders a new working key for a customer.
The customer gets it with the reply to the next message that is accepted under
the key before it. That one stays good for stamps up to the end of the
changeover (LENGTH in 'add'), those from before DATE too; for later ones it
isn't (E 1014). Until that is past no further one is made (refused 12). Order
none for a customer who won't send a file in that time: no reply could bring
the key.

  TABLE         the bank's file, made by setup
  DATE          today, yymmdd
  IDENTITY      up to 17 of A-Z, 0-9, blank and %()*+,-./:;<=>
  QUALIFIER     up to 8 of them, \"\" for a blank one
  CLOCK         16 hex digits, others each time: date -u +%y%m%d%H%M%S0000
                The key maker makes a key from CLOCK, K and its seed; further
                keys of a file from CLOCK + 1, CLOCK + 2 and so on. It is no
                secret. Take date and time, as exactly as you have them. With
                -u the hour at the end of summer time doesn't come twice. Write
                it down beside the command: to run the commands again on a copy
                of the table takes the same values. Never use a value again if
                you can help it. The seed moves on, so the keys would differ
                all the same, but not on an older copy of the table.

CLOCK may be '-', the next line of standard input, or '@NAME', the first line
of the file NAME: then no list of processes shows the digits. What is typed at
'-' is seen on the screen, unless 'stty -echo' comes before and 'stty echo'
after.

  --later       DATE is more than 31 days after the table's day, and meant so:
                the table can't go back
  --help        prints the help: after a command its own, in place of a command
                the whole
  --            ends the options, for a word that begins with two dashes
",
        Command::Receive =>
            b"usage: lentilpot receive TABLE DATE TIME TYPE CLOCK FILE REPLIES [READ]
           [--explain] [--later]

Receives a file and answers it.
The replies are listed, one a line, as 'K 1001'. Where the file begins with an
ESI the first is about it; the others are about the batches in their order, or
about data outside them (E 1023). The list comes once the table is saved and
REPLIES is there. An empty file gets no reply.
On a terminal the megabytes that were read are shown while a long file is
received.

  TABLE         the bank's file, made by setup
  DATE          today, yymmdd
                The bank's day. The table keeps it and can't go back: an
                earlier one is refused (4). A stamp after it is refused
                (E 1016), and one more than five banking days before it
                (E 1015). Take it from a clock that is right, as 'date +%y%m%d'
                prints it. The years are 1980 to 2079. The first after setup
                may be any; later ones need --later where they are more than 31
                days after the table's day. It is the same all day.
  TIME          the time, hhmmss
                It stands in the notice of every reply. Take it from the clock,
                as 'date +%H%M%S' prints it. It may be the same again.
  TYPE          the data type of the file's batches, 1 to 16
                The service that the file is for; no message tells it. A batch
                is refused if its sender may not send that type (E 1025). PATU
                has no numbers for services: give each its own once, and know
                it by the way that the file came. The whole file has one type.
                It is the same for every file of the service.
  CLOCK         16 hex digits, others each time: date -u +%y%m%d%H%M%S0000
                The key maker makes a key from CLOCK, K and its seed; further
                keys of a file from CLOCK + 1, CLOCK + 2 and so on. It is no
                secret. Take date and time, as exactly as you have them. With
                -u the hour at the end of summer time doesn't come twice. Write
                it down beside the command: to run the commands again on a copy
                of the table takes the same values. Never use a value again if
                you can help it. The seed moves on, so the keys would differ
                all the same, but not on an older copy of the table.
  FILE          the file to receive, - for standard input
                What a customer sent, at most 4,294,967,295 bytes. Keep it with
                its replies. Received again, its ESI has a used stamp (E 1018):
                nothing is accepted twice.
  REPLIES       the file of replies; for receive the name of a new one
                One reply and an LF each, in Latin-1: 237 characters for an
                ESI, 317 for a PTE. K or E is character 12, the code 13 to 16,
                the notice 178 to 237. Name it after the file that is received.
                It is made with the mode that your umask gives. receive takes a
                name once: replies never replace a file.
  READ          bytes a read, 1 to 65536; 65536 where it is left out
                How much of FILE is read at once. The answers are the same for
                any number. Leave it out. It may be the same again.

CLOCK may be '-', the next line of standard input, or '@NAME', the first line
of the file NAME: then no list of processes shows the digits. What is typed at
'-' is seen on the screen, unless 'stty -echo' comes before and 'stty echo'
after.

  --later       DATE is more than 31 days after the table's day, and meant so:
                the table can't go back
  --explain     beside each reply: which message it is about, its lines and
                byte in the file, customer, stamp, field and why; at the end
                how many were accepted and how many refused
  --help        prints the help: after a command its own, in place of a command
                the whole
  --            ends the options, for a word that begins with two dashes
",
        Command::Show => b"usage: lentilpot show TABLE [IDENTITY QUALIFIER]

Shows what a table holds, or one customer of it.
Keys are shown by their check values, never themselves. It may run beside any
other command.
'(past)' after a changeover: its last day is before the table's day, so that
the previous key is good for no later stamp and a further key may be made.
'n of 64 held': so many stamps are not too old on the table's day; with 64 no
message is accepted (E 1034) before some are.

  TABLE         the bank's file, made by setup
  IDENTITY      up to 17 of A-Z, 0-9, blank and %()*+,-./:;<=>
  QUALIFIER     up to 8 of them, \"\" for a blank one

  --help        prints the help: after a command its own, in place of a command
                the whole
  --            ends the options, for a word that begins with two dashes
",
        Command::Explain => b"usage: lentilpot explain REPLIES

Says in words what the replies in a file tell.
Beside each reply: what it is about, its notice, customer and stamp, and what
to tell the caller. Where a field is at fault (E 1010, E 1011) that is its name
and what was received in it; '?' there may stand for a character that can't be
shown. At the end how many were accepted and how many refused; the exit status
is 1 where some were.

  REPLIES       the file of replies; for receive the name of a new one
                One reply and an LF each, in Latin-1: 237 characters for an
                ESI, 317 for a PTE. K or E is character 12, the code 13 to 16,
                the notice 178 to 237. Name it after the file that is received.
                It is made with the mode that your umask gives. receive takes a
                name once: replies never replace a file.

  --help        prints the help: after a command its own, in place of a command
                the whole
  --            ends the options, for a word that begins with two dashes
",
        Command::Help => b"usage: lentilpot help [COMMAND]

Prints the help, whole or of one command.

  COMMAND       one of the commands
                The command whose help is printed. Leave it out for the whole
                help. It may be the same again.

  --help        prints the help: after a command its own, in place of a command
                the whole
  --            ends the options, for a word that begins with two dashes
",
    }
}

// The whole help: one text and so one write.
pub fn whole() -> &'static [u8] {
    b"usage: lentilpot COMMAND WORDS

  setup    TABLE BANK QUALIFIER SOFTWARE FLOOR K V [HOLIDAYS]
           sets up a bank's table
  add      TABLE DATE IDENTITY QUALIFIER PART1 PART2 CHECK GENERATION TYPES AGREED LEAVE [LENGTH] [--later]
           adds a customer, with the first transport key
  key      TABLE DATE IDENTITY QUALIFIER PART1 PART2 CHECK GENERATION [--later]
           enters a customer's next transport key
  order    TABLE DATE IDENTITY QUALIFIER CLOCK [--later]
           orders a new working key for a customer
  receive  TABLE DATE TIME TYPE CLOCK FILE REPLIES [READ] [--explain] [--later]
           receives a file and answers it
  show     TABLE [IDENTITY QUALIFIER]
           shows what a table holds, or one customer of it
  explain  REPLIES
           says in words what the replies in a file tell
  help     [COMMAND]
           prints the help, whole or of one command

  TABLE           the bank's file, made by setup
  BANK, IDENTITY  up to 17 of A-Z, 0-9, blank and %()*+,-./:;<=>
  QUALIFIER       up to 8 of them, \"\" for a blank one
  SOFTWARE        up to 16 of them
  FLOOR           110 or 120: the lowest version of PATU that is taken
  K, V            16 hex digits, 0-9 and A-F: random, secret, used once
  HOLIDAYS        a file, one yymmdd a line
  DATE            today, yymmdd
  PART1, PART2    16 hex digits each: the two parts of the transport key
  CHECK           6 hex digits: the check value of the transport key
  GENERATION      one digit: the generation of the transport key
  TYPES           the data types that the customer may send: 1,3,16, or - for none
  AGREED          yes or no: whether the use of PATU is agreed
  LEAVE           yes or no: whether the customer may ask for working keys
  LENGTH          days of a changeover, 1 to 60; 30 where it is left out
  TIME            the time, hhmmss
  TYPE            the data type of the file's batches, 1 to 16
  CLOCK           16 hex digits, others each time: date -u +%y%m%d%H%M%S0000
  FILE            the file to receive, - for standard input
  REPLIES         the file of replies; for receive the name of a new one
  READ            bytes a read, 1 to 65536; 65536 where it is left out
  COMMAND         one of the commands

K, V, PART1, PART2, CHECK and CLOCK may be '-', the next line of standard input, or '@NAME', the first line of
the file NAME: then no list of processes shows the digits. What is typed at '-' is seen on the screen, unless
'stty -echo' comes before and 'stty echo' after.

  --later         DATE is more than 31 days after the table's day, and meant so: the table can't go back
  --explain       beside each reply: which message it is about, its lines and byte in the file, customer,
                  stamp, field and why; at the end how many were accepted and how many refused
  --help          prints the help: after a command its own, in place of a command the whole
  -h              as --help
  --version       prints the program's name and version
  --              ends the options, for a word that begins with two dashes

Exit status  0  served, and every reply is K
             1  refused, or some reply is E
             2  trouble with words or files, told in one line on standard error

'lentilpot COMMAND --help' tells more of a command and its words.
"
}

pub fn version() -> &'static [u8] {
    b"lentilpot 1.5\n"
}
