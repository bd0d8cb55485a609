// A recipe of edits on file, run over two lent buffers.
#![tactic(auto)]

ghost use Rattle.std.specs.Prelude.{◌≡◌, true, ◌^◌, ◌<◌, length};
ghost use Rattle.emdf_request.specs.Requests.{edit_of};
ghost use Rattle.emdf_recipe.specs.File.{record_edit, record_allowed, edits, recipe_of, edits_of};
ghost use Rattle.emdf_recipe_run.specs.Runs.{run_of, ran_edit, counted, other, Lies, IsRun, RecipeCalled};

use emdf_edit::{Change, apply};
use emdf_format::{EditError, RecipeError};
use emdf_recipe::{RecipeRecord, RecordKind, check_recipe, octets_number, record_at};
use emdf_request::Request;
use openjoc_bitio::ByteCount;

// Which slice holds the carrier: the one that the run started from, or a lent buffer.
#[derive(Clone, Copy)]
pub enum Holder {
    Start,
    First,
    Second,
}

// Where the carrier is now, its length, and how many edits were refused.
#[derive(Clone, Copy)]
pub struct RunAnswer {
    pub holder: Holder,
    pub length: ByteCount,
    pub refused: usize,
}

// What a record that can be run asks for.
#[tactic(auto, unfolding(emdf_request::specs::Requests::edit_of, emdf_recipe::specs::File::edit_asked))]
fn change_of(file: &[u8], e: RecipeRecord) -> Change<'_>
    requires allowed { record_allowed (length file.now) e ≡ true }
    requires near { e.offset < 2 ^ 32 }
    ensures { edit_of result.request result.octets.now result.secondary.now ≡ record_edit file.now e }
{
    match e.kind {
        Ok(RecordKind::Body) => Change {
            request: Request::Body(e.place),
            octets: &file[e.offset..e.offset + e.length],
            secondary: &[],
        },
        Ok(RecordKind::Drop) => Change::without_bytes(Request::Drop(e.place)),
        Ok(RecordKind::Key) => Change::without_bytes(Request::Key(octets_number(
            file, e.offset, 8,
        ))),
        Err(_) => unreachable!(),
    }
}

fn other_of(holder: Holder) -> Holder
    ensures { result ≡ other holder }
{
    match holder {
        Holder::Start => Holder::First,
        Holder::First => Holder::Second,
        Holder::Second => Holder::First,
    }
}

#[tactic(auto, unfolding(crate::specs::Runs::counted))]
fn count_in(state: RunAnswer, answer: Result<ByteCount, EditError>) -> RunAnswer
    requires { state.refused < 65536 }
    ensures { result ≡ counted state answer }
{
    match answer {
        Ok(length) => RunAnswer {
            holder: other_of(state.holder),
            length,
            refused: state.refused,
        },
        Err(_) => RunAnswer {
            refused: state.refused + 1,
            ..state
        },
    }
}

// One edit: from where the carrier is, into the buffer that does not hold it.
fn run_edit(
    start: &[u8],
    change: Change,
    first: &mut [u8],
    second: &mut [u8],
    state: RunAnswer,
) -> RunAnswer
    requires { Lies state.holder state.length.0 first.old second.old × (state.refused < 65536) }
    ensures { IsRun (ran_edit start.now (edit_of change.entry.request change.entry.octets.now change.entry.secondary.now) (record { answer = state; first = first.old; second = second.old })) result first.new second.new }
{
    let n = state.length.0;
    match state.holder {
        Holder::Start => count_in(state, apply(start, change, first)),
        Holder::First => count_in(state, apply(&first[..n], change, second)),
        Holder::Second => count_in(state, apply(&second[..n], change, first)),
    }
}

// Every edit of a chain that was checked.
fn run_chain(start: &[u8], file: &[u8], first: &mut [u8], second: &mut [u8]) -> RunAnswer
    requires { recipe_of file.now ≡ edits (edits_of (recipe_of file.now)) }
    ensures { IsRun (run_of (recipe_of file.now) start.now first.old second.old) result first.new second.new }
{
    let mut i = octets_number(file, 0, 2) as usize;
    let mut state = RunAnswer {
        holder: Holder::Start,
        length: ByteCount(start.len()),
        refused: 0,
    };
    // A chain is a linked list: each record names the next one.
    while i != 0 {
        let e = record_at(file, i);
        let change = change_of(file, e);
        state = run_edit(start, change, first, second, state);
        i = e.next;
    }
    state
}

// The recipe of a file, on the carrier that start is.
pub fn run_recipe(
    start: &[u8],
    file: &[u8],
    first: &mut [u8],
    second: &mut [u8],
) -> Result<RunAnswer, RecipeError>
    ensures { RecipeCalled start.now file.now first.old second.old result first.new second.new }
{
    check_recipe(file)?;
    Ok(run_chain(start, file, first, second))
}
