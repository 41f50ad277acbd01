// Which reply answers what: the form, and the keys of the message's generations.

#![tactic(auto)]

ghost use Rattle.std.specs.Prelude.{◌≡◌, take};
ghost use Rattle.table.specs.Decode.{table_of};
ghost use Rattle.answers.specs.Answers.{bare_answer, full_answer, verdict_answer};

// A bare reply, with the contents of the field that it names in the first `count` characters of a message.
pub fn bare_answer(
    t: &[u8],
    o: opening::Opening,
    pte: bool,
    code: u32,
    field: u32,
    m: [u8; 161],
    count: usize,
) -> reply::Answering
    ensures { result ≡ bare_answer (table_of t.now) o pte code field (take count m) }
{
    let customer::Settings { bank, software, .. } = table::settings(t);
    reply::Answering {
        pte,
        bare: true,
        code,
        field,
        contents: message::field_contents(field, m, count),
        time: o.time,
        bank,
        software,
        message: [0; 161],
        closing: [0; 161],
        working: None,
        transport: None,
        enclosed: None,
    }
}

// A full reply, on the table as the verdict leaves it.
fn full_answer(
    t: &[u8],
    o: opening::Opening,
    pte: bool,
    out: verdict::Outcome,
    m: [u8; 161],
    closing: [u8; 161],
) -> reply::Answering
    ensures { result ≡ full_answer (table_of t.now) o pte out m closing }
{
    let customer::Settings { bank, software, .. } = table::settings(t);
    let c = checks::customer_of(t, m);
    let generation = message::working_generation(m);
    reply::Answering {
        pte,
        bare: false,
        code: out.code,
        field: out.field,
        contents: message::no_contents(),
        time: o.time,
        bank,
        software,
        message: m,
        closing,
        working: changeover::held(c.working, generation),
        transport: changeover::held(c.transport, message::transport_generation(m)),
        enclosed: out.enclosed,
    }
}

// The reply to a verdict: the bare form needs no keys.
pub fn verdict_answer(
    t: &[u8],
    o: opening::Opening,
    pte: bool,
    out: verdict::Outcome,
    m: [u8; 161],
    closing: [u8; 161],
) -> reply::Answering
    ensures { result ≡ verdict_answer (table_of t.now) o pte out m closing }
{
    if notice::is_bare(out.code) {
        let faulty = message::at_fault(out.about, m, closing);
        bare_answer(t, o, pte, out.code, out.field, faulty, 161)
    } else {
        full_answer(t, o, pte, out, m, closing)
    }
}
