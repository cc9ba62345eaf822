//! Verdicts.

ghost use Rattle.std.specs.Prelude.{◌≡◌, ◌↔◌, IsTrue, IfErr, IfOk};
ghost use Rattle.machine.specs.State.{opening};
ghost use Rattle.judge.specs.Judging.{IsRun};
ghost use Rattle.judge.specs.Verdicts.{IsVerdict, is_run};
ghost use Rattle.judge.specs.Views.{rules_of};
ghost use Rattle.judge.specs.declared.NoVerdict.TheVariants.{NoMemory};

use crate::NoVerdict;
use crate::arrays::Sectors;
use crate::machine_state::Machine;
use crate::rules::MachineRules;
use crate::steps::all_next;
use machine::Label;
use std::alloc::Global;

/// What is said of a list of labels.
#[derive(Debug, Drop)]
pub enum Verdict {
    /// The labels are a run and lead to these machines: one, unless several requests might have made a start.
    Run(Vec<Machine>),
    /// No step allows the label of this place, counted from 0, after those before it.
    Stops(usize),
}

impl Verdict {
    /// Whether the labels are a run.
    pub fn is_run(&self) -> bool
        ensures { result ≡ is_run self.now }
    {
        match self {
            Verdict::Run(_) => true,
            Verdict::Stops(_) => false,
        }
    }
}

/// The verdict, label by label.
fn judged(
    alloc: Global,
    rules: &MachineRules,
    arrays: Vec<Sectors>,
    labels: &[Label],
) -> Result<Verdict, NoVerdict>
    ensures { IfOk result (λ v. IsVerdict (rules_of rules.now) (opening arrays.items) labels.now v) }
{
    let mut machines = Vec::new(alloc);
    machines.push(Machine::new(alloc, arrays))?;
    for (at, label) in labels.iter().enumerate() {
        machines = all_next(alloc, rules, label, None, machines)?;
        if machines.is_empty() {
            return Ok(Verdict::Stops(at));
        }
    }
    Ok(Verdict::Run(machines))
}

/// Judges whether the labels are a run of the machine with these rules, from its opening state with these sectors in
/// its partitions, in their order.
///
/// # Errors
///
/// [`NoVerdict::NoMemory`] where memory was refused, or a count has no room left.
///
/// # Example
///
/// ```
/// let whole = match judge(alloc, &rules, arrays, run.told.labels.as_slice())? {
///     Verdict::Run(_) => None,
///     Verdict::Stops(at) => Some(at),
/// };
/// ```
#[tactic(auto, using(crate::proofs::Judged::exactly))]
pub fn judge(
    alloc: Global,
    rules: &MachineRules,
    arrays: Vec<Sectors>,
    labels: &[Label],
) -> Result<Verdict, NoVerdict>
    ensures exact { IfOk result (λ v. IsTrue (is_run v) ↔ IsRun (rules_of rules.now) (opening arrays.items) labels.now) }
    ensures verdict { IfOk result (λ v. IsVerdict (rules_of rules.now) (opening arrays.items) labels.now v) }
    ensures fault { IfErr result (λ why. why ≡ NoMemory) }
{
    let Ok(verdict) = judged(alloc, rules, arrays, labels) else {
        return Err(NoVerdict::NoMemory);
    };
    Ok(verdict)
}
