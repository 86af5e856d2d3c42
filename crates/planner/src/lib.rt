// The planner: from a lent table to the plan that hears the most rows, of several the first in the order of label
// lists, or to a refusal (docs/RULES.md, What the planner promises).
#![tactic(auto)]

ghost use Rattle.std.specs.Prelude.{◌≡◌, length};
ghost use Rattle.refusals.specs.Refusals.{number_of, answer_of};
ghost use Rattle.table.specs.Tables.{lent};
ghost use Rattle.table.specs.Planned.{checked, called, plan_call, IsBestPlan};

use best_plan::SPACE_BYTES;
use refusals::Refusal;
use table::{Table, checks};

// All checks before 8: the lists, the working space, the setting and the rows, in this order.
#[tactic(auto, unfolding(table::specs::Planned::checked, table::specs::Planned::space_refusal))]
fn check_call(table: Table, labels: &[u8], space: &[u8]) -> Result<(), Refusal>
    ensures { result ≡ checked (lent table.entry) labels.now (length space.now) }
{
    table.rows.check_lists(labels.len())?;
    if space.len() < SPACE_BYTES {
        return Err(Refusal::Space);
    }
    checks::check_table(table).refusal
}

// THE PLANNER. What a call gives, answer, labels and working space, is what the definition `plan_call` yields, on
// every input, whatever labels and working space held before. And so, where all checks before 8 pass, it gives the
// best plan, or refusal 8 where there is none.
pub fn plan(table: Table, labels: &mut [u8], space: &mut [u8]) -> Result<usize, Refusal>
    ensures planned { called (answer_of result) labels.new space.new
        ≡ plan_call (lent table.entry) labels.old space.old }
    ensures best { number_of (checked (lent table.entry) labels.old (length space.old)) ≡ 0
        → IsBestPlan (lent table.entry) (answer_of result) labels.new }
{
    check_call(table, labels, space)?;
    let answer = best_plan::plan_checked(table, labels, space);
    best_plan::clear_space(space);
    answer
}
