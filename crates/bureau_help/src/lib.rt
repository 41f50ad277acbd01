// Made by scripts/pages from docs/commands-bureau: change that and not this. What the program prints for help.
#![tactic(auto)]

use cli_terminal::options::Words;
use cli_terminal::program::Program;
use cli_terminal::say;
use cli_terminal::status::Told;

// The commands, in the order of the list.
#[derive(Clone, Copy, Debug, PartialEq, Eq)]
pub enum Command {
    Open,
    Key,
    Make,
    Check,
    Show,
    Help,
}

// The command of a number in the order of the list, from 1; of every other number the last.
impl From<u32> for Command {
    fn from(number: u32) -> Command {
        match number {
            1 => Command::Open,
            2 => Command::Key,
            3 => Command::Make,
            4 => Command::Check,
            5 => Command::Show,
            _ => Command::Help,
        }
    }
}

// The command that a word names.
pub fn command_of(word: &[u8]) -> Option<Command> {
    match word {
        b"open" => Some(Command::Open),
        b"key" => Some(Command::Key),
        b"make" => Some(Command::Make),
        b"check" => Some(Command::Check),
        b"show" => Some(Command::Show),
        b"help" => Some(Command::Help),
        _ => None,
    }
}

// The commands' names, for the line that says what was expected.
pub fn tell_names(rt: &HostRuntime) {
    say::expected(
        rt,
        Program::Bureau,
        b"COMMAND",
        b"open, key, make, check, show or help",
    );
}

// The words of a command, or of its number, as the end of a line.
pub fn words_of<C: Into<Command>>(command: C) -> &'static [u8] {
    match command.into() {
        Command::Open =>
            b"open DESK IDENTITY QUALIFIER BANK BANKQUALIFIER SOFTWARE PART1 PART2 CHECK GENERATION K V\n",
        Command::Key => b"key DESK PART1 PART2 CHECK GENERATION\n",
        Command::Make =>
            b"make DESK DATE TIME CLOCK METHOD FILE [RECORDS...] [--ask] [--end] [--crlf] [--area-a]\n",
        Command::Check => b"check DESK REPLIES [NUMBER]\n",
        Command::Show => b"show DESK\n",
        Command::Help => b"help [COMMAND]\n",
    }
}

// The same, to standard error.
pub fn tell_words<C: Into<Command>>(rt: &HostRuntime, command: C) {
    say::err(rt, words_of(command));
}

// Whether there are as many words as the command takes, or what was expected.
pub fn are_as_many<C: Into<Command>>(
    rt: &HostRuntime,
    words: &Words,
    command: C,
    low: usize,
    high: usize,
) -> Result<(), Told> {
    let command = command.into();
    let are_so = words.are_as_many(rt, Program::Bureau, low, high);
    if are_so.is_err() {
        tell_words(rt, command);
    }
    are_so
}

// The help of one command, or of its number.
pub fn of<C: Into<Command>>(command: C) -> &'static [u8] {
    match command.into() {
        Command::Open =>
            b"usage: bureau open DESK IDENTITY QUALIFIER BANK BANKQUALIFIER SOFTWARE PART1
           PART2 CHECK GENERATION K V

Opens a desk: one customer at one bank, with the first transport key.
DESK is the name of a new file. A desk is never replaced: its keys would be
lost. The first working key, generation 0, is made from the transport key.
Compare the check values that 'show' tells with the bank by telephone.

  DESK          the customer's file, made by open
                The customer's keys, the key maker, and what was sent and waits
                for a reply: 16,640 bytes that only their owner can read. Keep
                it on a disk of the one machine that sends. Name the file
                itself, not a link to it. Every command names the customer's
                one desk at that bank. Never put an older copy in its place
                while there is a desk: it has forgotten keys and stamps.
  IDENTITY      up to 17 of A-Z, 0-9, blank and %()*+,-./:;<=>
                The customer's identity, as the bank gave it. With QUALIFIER it
                is the customer's name in every message. Take what the bank
                gave, not all blank. With another QUALIFIER it is another
                customer, with a desk of its own.
  QUALIFIER     up to 8 of them, \"\" for a blank one
                The second part of the customer's name. It counts: with another
                qualifier it is another name. Take what the bank gave. It may
                stand with any number of identities.
  BANK          up to 17 of A-Z, 0-9, blank and %()*+,-./:;<=>
                The bank's identity. Every message names it and BANKQUALIFIER
                as its receiver (else E 1021). Take what the bank gave, not all
                blank. One desk for each bank.
  BANKQUALIFIER up to 8 of them, \"\" for a blank one
                The second part of the bank's name. Take what the bank gave. It
                may stand with any number of banks.
  SOFTWARE      up to 16 of them
                The name and release of the customer's software, which stands
                in every message. Any that isn't all blank. It may be the same
                at every desk.
  PART1, PART2  16 hex digits each: the two parts of the transport key
                The bank makes the key and sends it in two letters, a part in
                each. Joined by XOR they are the key. Copy them without blanks,
                each part by another person. Each byte has odd parity, which
                shows many a slip (refused 8). They are secret: they are never
                taken from the command line. Never use a part again: each
                generation has its own two.
  CHECK         6 hex digits: the check value of the transport key
                It shows whether both parts were copied rightly (else
                refused 9). It is no secret. Copy it from the letter with the
                second part. Each key has its own.
  GENERATION    one digit: the generation of the transport key
                The number that the letters and the messages give the key. For
                open it is what the letters say. For key it is the next one
                (else refused 10): 1 follows 0 and 9. 'show' tells the current
                one. It comes round after 9, and 0 never comes again.
  K, V          16 hex digits, 0-9 and A-F: random, secret, used once
                The key and the first seed of the key maker, which makes the
                one-time key of each batch. Who knows both can work these out.
                Make each at random:
                'od -An -N8 -tx1 /dev/urandom | tr -d \" \" | tr a-f A-F'. They
                have no parity. Keep them nowhere else: the desk has them. They
                are never taken from the command line. Never use them again,
                for another desk or for anything else.

PART1, PART2, CHECK, K and V may be '-', the next line of standard input, or
'@NAME', the first line of the file NAME; the parts, K and V must be. What is
typed at '-' is seen on the screen, unless 'stty -echo' comes before and
'stty echo' after.

  --help        prints the help: after a command its own, in place of a command
                the whole
  --            ends the options, for a word that begins with two dashes
",
        Command::Key => b"usage: bureau key DESK PART1 PART2 CHECK GENERATION

Enters the next transport key.
The key before it is kept too, for replies that are still to come. The working
keys stay as they are. Compare the check values that 'show' tells with the bank
by telephone.

  DESK          the customer's file, made by open
  PART1, PART2  16 hex digits each: the two parts of the transport key
                The bank makes the key and sends it in two letters, a part in
                each. Joined by XOR they are the key. Copy them without blanks,
                each part by another person. Each byte has odd parity, which
                shows many a slip (refused 8). They are secret: they are never
                taken from the command line. Never use a part again: each
                generation has its own two.
  CHECK         6 hex digits: the check value of the transport key
                It shows whether both parts were copied rightly (else
                refused 9). It is no secret. Copy it from the letter with the
                second part. Each key has its own.
  GENERATION    one digit: the generation of the transport key
                The number that the letters and the messages give the key. For
                open it is what the letters say. For key it is the next one
                (else refused 10): 1 follows 0 and 9. 'show' tells the current
                one. It comes round after 9, and 0 never comes again.

PART1, PART2 and CHECK may be '-', the next line of standard input, or '@NAME',
the first line of the file NAME; the parts, K and V must be. What is typed at
'-' is seen on the screen, unless 'stty -echo' comes before and 'stty echo'
after.

  --help        prints the help: after a command its own, in place of a command
                the whole
  --            ends the options, for a word that begins with two dashes
",
        Command::Make => b"usage: bureau make DESK DATE TIME CLOCK METHOD FILE [RECORDS...] [--ask]
           [--end] [--crlf] [--area-a]

Makes a file to send: an ESI, and a batch for each RECORDS.
The stamps are DATE, TIME and 001, 002 and so on, the ESI's first. At most 63
batches go into a file. Without RECORDS the file is an ESI alone, as to ask for
a key. The file stands under its name once the desk is saved.
What was sent is kept in the desk until its reply was checked. It has room for
128 messages: where that is too little the oldest that wait are forgotten,
which is told.
On a terminal the megabytes that were written are shown while a long file is
made.

  DESK          the customer's file, made by open
  DATE          today, yymmdd
                The date of the file's stamps. The bank refuses one after its
                own day (E 1016) and one more than five banking days before it
                (E 1015). Take it from a clock that is right, as 'date +%y%m%d'
                prints it. The years are 1980 to 2079. It is the same all day.
                DATE and TIME together are later than those of the file before.
  TIME          the time, hhmmss
                The time of the file's stamps. A stamp is accepted once: two
                files never have the same DATE and TIME. Take it from the
                clock, as 'date +%H%M%S' prints it. Never on the same DATE.
  CLOCK         16 hex digits, others each time: date -u +%y%m%d%H%M%S0000
                The key maker makes the one-time key of the first batch from
                CLOCK, K and its seed, and those of further batches from CLOCK
                + 1, CLOCK + 2 and so on. It is no secret. Take date and time,
                as exactly as you have them. With -u the hour at the end of
                summer time doesn't come twice. Never use a value again if you
                can help it. The seed moves on, so the keys would differ all
                the same, but not on an older copy of the desk.
  METHOD        SKH or SKE: how the batches are digested
                SKH leaves out the blanks at the end of each record, SKE keeps
                them. Take SKH, unless the bank asks for SKE: then no blank at
                a record's end may be lost or added on the way. It may be the
                same for every file.
  FILE          the file to send: the name of a new one
                An ESI and a batch for each RECORDS, each a SUO, the records
                and a VAR, at most 4,294,967,295 bytes. Name it as you keep it
                with its replies. It is made with the mode that your umask
                gives. make takes a name once: messages never replace a file.
  RECORDS       a file of lines, the records of one batch
                LF or CR LF ends a line, and the last may have none. Blanks at
                a line's end are kept. No line may begin with >>ESI, >>SUO or
                >>VAR, or end in a CR of its own; some line must have a
                character that isn't left out. Take what your payroll or ledger
                wrote. A word for each batch, in their order.

CLOCK may be '-', the next line of standard input, or '@NAME', the first line
of the file NAME; the parts, K and V must be. What is typed at '-' is seen on
the screen, unless 'stty -echo' comes before and 'stty echo' after.

  --ask         asks the bank for a new working key, in the last message of the
                file
  --end         asks the bank to end the changeover, so that the previous
                working key is good no more; in the last message
  --crlf        CR LF ends the lines of FILE; else LF does
  --area-a      field 13 of the batches is A; else it is S
  --help        prints the help: after a command its own, in place of a command
                the whole
  --            ends the options, for a word that begins with two dashes
",
        Command::Check => b"usage: bureau check DESK REPLIES [NUMBER]

Checks what the bank sent back.
A line for each message of the file that the replies answer: the bank's word,
as 'K 1001', and whether the reply is the bank's answer to this message
('passes', or a finding and what to do). A batch is accepted only where its
reply says K and passes. A working key that a reply encloses is kept: compare
its check value with the bank by telephone before it is used.
The same replies may be checked again.

  DESK          the customer's file, made by open
  REPLIES       the file of the bank's replies
                One reply and an LF each, as the bank wrote it: 237 characters
                for an ESI, 317 for a PTE. A CR before the LF is taken off.
                Keep it with the file that was sent. It may be checked again.
  NUMBER        the number of the file that the replies answer
                make and show tell it. Left out, it is found by the stamps of
                the replies. Name it where several files wait and the replies
                have no stamp. It may be the same again.

  --help        prints the help: after a command its own, in place of a command
                the whole
  --            ends the options, for a word that begins with two dashes
",
        Command::Show => b"usage: bureau show DESK

Shows what a desk holds.
Keys are shown by their check values, never themselves. Then comes each message
that still waits for a reply that passes. It may run beside any other command.

  DESK          the customer's file, made by open

  --help        prints the help: after a command its own, in place of a command
                the whole
  --            ends the options, for a word that begins with two dashes
",
        Command::Help => b"usage: bureau help [COMMAND]

Prints the help, whole or of one command.

  COMMAND       one of the commands
                The command whose help is printed. Leave it out for the whole
                help. It may be the same again.

  --help        prints the help: after a command its own, in place of a command
                the whole
  --            ends the options, for a word that begins with two dashes
",
    }
}

// The whole help: one text and so one write.
pub fn whole() -> &'static [u8] {
    b"usage: bureau COMMAND WORDS

  open     DESK IDENTITY QUALIFIER BANK BANKQUALIFIER SOFTWARE PART1 PART2 CHECK GENERATION K V
           opens a desk: one customer at one bank, with the first transport key
  key      DESK PART1 PART2 CHECK GENERATION
           enters the next transport key
  make     DESK DATE TIME CLOCK METHOD FILE [RECORDS...] [--ask] [--end] [--crlf] [--area-a]
           makes a file to send: an ESI, and a batch for each RECORDS
  check    DESK REPLIES [NUMBER]
           checks what the bank sent back
  show     DESK
           shows what a desk holds
  help     [COMMAND]
           prints the help, whole or of one command

  DESK                      the customer's file, made by open
  IDENTITY, BANK            up to 17 of A-Z, 0-9, blank and %()*+,-./:;<=>
  QUALIFIER, BANKQUALIFIER  up to 8 of them, \"\" for a blank one
  SOFTWARE                  up to 16 of them
  PART1, PART2              16 hex digits each: the two parts of the transport key
  CHECK                     6 hex digits: the check value of the transport key
  GENERATION                one digit: the generation of the transport key
  K, V                      16 hex digits, 0-9 and A-F: random, secret, used once
  DATE                      today, yymmdd
  TIME                      the time, hhmmss
  CLOCK                     16 hex digits, others each time: date -u +%y%m%d%H%M%S0000
  METHOD                    SKH or SKE: how the batches are digested
  FILE                      the file to send: the name of a new one
  RECORDS                   a file of lines, the records of one batch
  REPLIES                   the file of the bank's replies
  NUMBER                    the number of the file that the replies answer
  COMMAND                   one of the commands

PART1, PART2, CHECK, K, V and CLOCK may be '-', the next line of standard input, or '@NAME', the first line of
the file NAME; the parts, K and V must be. What is typed at '-' is seen on the screen, unless 'stty -echo'
comes before and 'stty echo' after.

  --ask                     asks the bank for a new working key, in the last message of the file
  --end                     asks the bank to end the changeover, so that the previous working key is good no
                            more; in the last message
  --crlf                    CR LF ends the lines of FILE; else LF does
  --area-a                  field 13 of the batches is A; else it is S
  --help                    prints the help: after a command its own, in place of a command the whole
  -h                        as --help
  --version                 prints the program's name and version
  --                        ends the options, for a word that begins with two dashes

Exit status  0  served; of a check, every message has a reply that says K and passes
             1  refused; of a check, some reply says E, doesn't pass, or never came
             2  trouble with words or files, told in one line on standard error

'bureau COMMAND --help' tells more of a command and its words.
"
}

pub fn version() -> &'static [u8] {
    b"bureau 1.5\n"
}
