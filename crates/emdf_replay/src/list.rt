// A list in text, whatever its cases are: a case on each line, in decimal numbers that one space separates.
ghost use Rattle.std.specs.Prelude.{◌+◌, ◌^◌, ◌<◌, ◌≤◌, ◌≡◌};
ghost use Rattle.emdf_replay.specs.Places.{TokenPast, LinePast};

#[derive(Clone, Copy)]
pub(crate) struct Tally {
    pub(crate) cases: u64,
    pub(crate) differ: u64,
}

// The line at index at, its numbers at the start of numbers: how many it has, and where the next line starts.
pub(crate) fn line_at(text: &[u8], at: usize, numbers: &mut [u64]) -> Option<(usize, usize)>
    ensures { LinePast at numbers.new result }
{
    let mut next = at;
    for (i, number) in numbers.iter_mut().enumerate() {
        let (value, past, last) = token_at(text, next)?;
        *number = value;
        next = past;
        if last {
            return Some((i + 1, next));
        }
    }
    None
}

// A number, where the next one starts, and whether a line end stands between.
fn token_at(text: &[u8], at: usize) -> Option<(u64, usize, bool)>
    ensures { TokenPast at result }
{
    let (value, end) = emdf_text::number_at(text, at)?;
    match text.get(end)? {
        b' ' => Some((value, end + 1, false)),
        b'\n' => Some((value, end + 1, true)),
        _ => None,
    }
}

impl Tally {
    // One case more. Five names are enough to see where to look.
    pub(crate) fn counted(self, rt: &impl Print, same: bool) -> Self
        requires { (self.cases + 1 < 2 ^ 64) × (self.differ ≤ self.cases) }
        ensures { (result.cases ≡ self.cases + 1) × (result.differ ≤ result.cases) }
    {
        let cases = self.cases + 1;
        let differ = self.differ;
        if same {
            return Tally { cases, differ };
        }
        if differ < 5 {
            let _ = println!(rt; "differs: case {cases}");
        }
        Tally {
            cases,
            differ: differ + 1,
        }
    }
}

// Where standard output takes no line it is lost, here and in the other lines: what is replayed is replayed all the same.
pub(crate) fn print_tally(rt: &impl Print, name: &str, tally: Tally) {
    let Tally { cases, differ } = tally;
    let _ = println!(rt; "{name}: {cases} cases, {differ} differ");
}

// The line after the cases that were replayed.
pub(crate) fn print_bad_line(rt: &impl Print, name: &str, tally: Tally)
    requires { tally.cases + 1 < 2 ^ 64 }
{
    let _ = println!(rt; "{name}: bad line {}", tally.cases + 1);
}
