// The program as a library: the input's bytes to the output's, as far as the lent room goes.
#![tactic(auto)]

ghost use Rattle.std.specs.Prelude.{◌≡◌, [], ◌+◌, ◌*◌, ◌^◌, ◌<◌, ◌≤◌, length, take, Some};
ghost use Rattle.model.specs.Answers.{said_done};
ghost use Rattle.lines.specs.Lines.{lines_of};
ghost use Rattle.lines.specs.declared.Command.TheVariants.{Fresh};
ghost use Rattle.print.specs.Printed.{said_answer};
ghost use Rattle.print.specs.Room.{Put, Filled};
ghost use Rattle.desk.specs.Desk.{size_with_n, letter_of_command, lines_text, desk_text, most, longest};
ghost use Rattle.desk.specs.Kept.{Kept};
ghost use Rattle.desk.specs.Running.{Answered};

use lines::Command;
use model::Refusal;
use print::Answer;

// The size of the front in which `I n` makes its table: nothing of the buffer where N is not 2 to 8, which `fresh` then refuses.
#[tactic(auto, unfolding(crate::specs::Desk::size_with_n, model::specs::Bytes::is_in_range), using(crate::specs::Kept::table_most))]
fn size_with(n: usize) -> usize
    ensures { (result ≡ size_with_n 0 n) × (result ≤ 4640) }
{
    match n {
        2..=8 => n * record::record_len(n),
        _ => 0,
    }
}

fn letter_of(c: Option<Command>) -> u8
    ensures { result ≡ letter_of_command c }
{
    match c {
        Some(Command::Fresh(_)) => b'I',
        Some(Command::Update(_)) => b'U',
        Some(Command::Meet(_, _)) => b'M',
        Some(Command::Compare(_, _)) => b'C',
        Some(Command::Superfluous) => b'D',
        None => b'?',
    }
}

// The table, in the first `size` bytes of a buffer that holds the largest: a call is lent that front as it is, and `I n` makes another.
// That it fits stands in the methods' clauses: a struct with a ghost field cannot lend its buffer as `&mut`.
#[derive(Drop)]
struct Table {
    buffer: [u8; 4640],
    size: usize,
}

impl Table {
    // None yet: every call but `I n` is refused.
    fn new() -> Table
        ensures { (take result.size result.buffer ≡ []) × (result.size ≤ 4640) }
    {
        Table {
            buffer: [0; 4640],
            size: 0,
        }
    }

    // `I n`: a fresh table, where N is 2 to 8; a refusal keeps the old one.
    fn renew(&mut self, n: usize) -> Result<(), Refusal>
        requires { self.old.size ≤ 4640 }
        ensures fits { self.new.size ≤ 4640 }
        ensures kept { Kept (Some (Fresh n)) (take self.old.size self.old.buffer) (take self.new.size self.new.buffer) (said_done result) }
    {
        let size = size_with(n);
        fresh::make_fresh(&mut self.buffer[..size], n)?;
        self.size = size;
        Ok(())
    }

    // Call c on the table. The calls differ in what they take and give, so that a closure for each would be no plainer.
    #[tactic(auto, unfolding(crate::specs::Desk::call_says, crate::specs::Desk::call_leaves), using(crate::specs::Kept::lent_front))]
    fn call(&mut self, c: Option<Command>) -> Result<Answer, Refusal>
        requires { self.old.size ≤ 4640 }
        ensures fits { self.new.size ≤ 4640 }
        ensures kept { Kept c (take self.old.size self.old.buffer) (take self.new.size self.new.buffer) (said_answer result) }
    {
        let size = self.size;
        match c {
            Some(Command::Fresh(n)) => self.renew(n).map(|()| Answer::Done),
            Some(Command::Update(i)) => {
                steps::update(&mut self.buffer[..size], i).map(|()| Answer::Done)
            }
            Some(Command::Meet(i, j)) => {
                steps::meet(&mut self.buffer[..size], i, j).map(|()| Answer::Done)
            }
            Some(Command::Compare(i, j)) => {
                table::compare(&self.buffer[..size], i, j).map(Answer::Order)
            }
            Some(Command::Superfluous) => {
                table::list_superfluous(&self.buffer[..size]).map(Answer::Copies)
            }
            None => Err(Refusal::Unreadable),
        }
    }

    // Line k: it is read, called, and its answer put out from `at` on; the place behind it. `out` and `at` are what `print` takes.
    fn answer_line(&mut self, line: &[u8], k: usize, out: &mut [u8], at: usize) -> usize
        requires { (k < 100000) × (at ≤ 2 ^ 30) × (self.old.size ≤ 4640) }
        ensures fits { self.new.size ≤ 4640 }
        ensures answered { Answered line.now k at (take self.old.size self.old.buffer) (take self.new.size self.new.buffer) out.old out.new result }
    {
        let c = lines::read_line(line);
        let answer = self.call(c);
        print::put_line(out, at, k, letter_of(c), answer)
    }
}

// The lines of the input one after another, put out from `start` on.
fn run_lines(input: &[u8], out: &mut [u8], start: usize) -> usize
    requires { (length input.now ≤ most) × (start ≤ 17) }
    ensures { Put (lines_text 0 [] (lines_of input.now)) start out.old out.new result × (result ≤ start + 20 * most) }
{
    let mut table = Table::new();
    let mut rest = input;
    let mut k = 0;
    let mut at = start;
    // Each line ends where `place_of` says; `split_inclusive` would hand it over with its newline, to be cut off again.
    while !rest.is_empty() {
        let end = lines::place_of(rest, b'\n');
        k += 1;
        at = table.answer_line(&rest[..end], k, out, at);
        rest = rest.get(end + 1..).unwrap_or(&[]);
    }
    at
}

// What the program writes for this input, as far as the room goes; the answer is the length of the whole.
pub fn run(input: &[u8], out: &mut [u8]) -> usize
    ensures { Filled (desk_text input.now) out.old out.new result × (result ≤ longest) }
{
    let at = print::put(out, 0, b"line call answer\n");
    if 65536 < input.len() {
        return print::put_line(out, at, 0, b'?', Err(Refusal::Unreadable));
    }
    run_lines(input, out, at)
}
