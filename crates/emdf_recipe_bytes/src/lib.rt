// The answers of the recipe calls in a host's form.
#![tactic(auto)]

ghost use Rattle.std.specs.Prelude.{◌≡◌};
ghost use Rattle.emdf_answers.specs.Replies.{two_reply, Replies};
ghost use Rattle.emdf_recipe_bytes.specs.Recipes.{checked_figures, holder_number, ran_reply};

use emdf_format::{Figures, RecipeError};
use emdf_recipe_run::{Holder, RunAnswer};
use emdf_refusals::Numbered;

pub fn put_checked(answer: &mut [u8; 16], checked: Result<usize, RecipeError>) -> u32
    ensures { Replies (two_reply (checked_figures checked)) result answer.new }
{
    emdf_rows::put_two(answer, checked_figures(checked))
}

fn checked_figures(checked: Result<usize, RecipeError>) -> Figures
    ensures { result ≡ checked_figures checked }
{
    emdf_answers::answer_figures(checked.map(|edits| (edits as u64, 0)))
}

fn holder_number(holder: Holder) -> u64
    ensures { result ≡ holder_number holder }
{
    match holder {
        Holder::Start => 0,
        Holder::First => 1,
        Holder::Second => 2,
    }
}

#[tactic(auto, unfolding(emdf_answers::specs::Replies::padded))]
pub fn put_ran(answer: &mut [u8; 24], ran: Result<RunAnswer, RecipeError>) -> u32
    ensures { Replies (ran_reply ran) result answer.new }
{
    match ran {
        Ok(a) => {
            let values = [holder_number(a.holder), a.length.0 as u64, a.refused as u64];
            emdf_rows::put_answer(answer, 0, &values)
        }
        Err(why) => {
            let f = why.figures();
            emdf_rows::put_answer(answer, f.number, &[f.first, f.second, 0])
        }
    }
}
