// What a code line costs, by each kind.
ghost use Rattle.std.specs.Prelude.{◌≡◌, Some};
ghost use Rattle.lines.specs.Checks.{answer, judge_check};
ghost use Rattle.editor_line.specs.Costs.{all_costs, costs_text};

use cost::{Pair, Summed, Worst};
use display::DisplayMachine;
use lines::{Fault, judge};
use std::fmt;

#[derive(Clone, Copy)]
pub struct Costs {
    pub summed: Summed,
    pub worst: Worst,
    pub pair: Pair,
}

pub fn costs_of_line<M: DisplayMachine>(
    machine: &M,
    codes: &[u8],
    targets: &[u8],
) -> Result<Costs, Fault>
    ensures { result ≡ answer (judge_check (M.meaning machine.now) codes.now targets.now) (all_costs (M.meaning machine.now) codes.now targets.now) }
{
    Ok(Costs {
        summed: judge(machine, codes, targets)?,
        worst: judge(machine, codes, targets)?,
        pair: judge(machine, codes, targets)?,
    })
}

impl fmt::Display for Costs {
    ghost output = { λ costs. Some (costs_text costs) };

    fn fmt<W: fmt::Write>(&self, f: &mut fmt::Formatter<W>) -> fmt::Result {
        write!(
            f,
            "cost summed {} worst {} pair {}",
            self.summed, self.worst, self.pair
        )
    }
}
