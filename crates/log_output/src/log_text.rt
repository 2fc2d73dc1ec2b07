ghost use Rattle.std.specs.Prelude.{◌≡◌, [], ◌++◌, All, IfOk, IfSome, IsErrOf, OnErr, OnOk};
ghost use Rattle.std.specs.List.{flat_map};
ghost use Rattle.cell_io.specs.Desk.{Rose};
ghost use Rattle.cell_io.specs.Output.{CanPut};
ghost use Rattle.cell_io.specs.declared.output.WriteFault.TheVariants.{Failed, NoMemory as Short};
ghost use Rattle.bound_log.specs.Fits.{BestFits, Fits, ForSome, IsLogName, LemmaFits, StepFits};
ghost use Rattle.bound_log.specs.Text.{best_text, column_line, lemma_line, log_text};
ghost use Rattle.bound_log.specs.Kept.{HasRoom};
ghost use Rattle.log_output.specs.Giving.{Gives, GivesSome, KeepsUntold, OnlyPuts};
ghost use Rattle.log_output.specs.Ready.{CanBeGiven};
ghost use Rattle.log_output.specs.Targets.{place_of};

use crate::block::Block;
use crate::kept_log::KeptLog;
use crate::log_buffers::LogBuffers;
use crate::target::Target;
use bound_log::{Best, Kept, Lemma, LineWriter, LogStep};
use cell_io::{Desk, WriteFault};
use cell_num::{Name, NoMemory};
use std::alloc::Global;
use std::marker::Model;

/// The text of a log, which is never whole in memory: its lines are spelled as they are given, in memory that was
/// taken before. Contracts see it as the text.
pub struct LogText {
    name: Name,
    log: KeptLog,
    lemma: Lemma,
    lines: LineWriter,
    block: Block,
}

// (by hand, so that functions in which one goes out of scope cite this proof)
impl Drop for LogText {
    fn drop(self) {
        let LogText {
            name,
            log,
            lemma,
            lines,
            block,
        } = self;
        drop(name);
        drop(log);
        drop(lemma);
        drop(lines);
        drop(block);
    }
}

impl Model for LogText {
    ghost use Rattle.std.specs.Prelude.{ℕ, List as Sequence};
    ghost use Rattle.bound_log.specs.Text.{log_text};
    ghost use Rattle.log_output.specs.Ready.{CanBeGiven};

    ghost Value = { Sequence ℕ };

    ghost view = { λ t. log_text t.name t.log };

    ghost invariant = { λ t. CanBeGiven t.name t.log t.lemma t.block };
}

#[tactic(auto, using(crate::proofs::Rules::give_lemmas_rules))]
fn give_lemmas<D: Desk>(
    desk: &mut D,
    target: Target<'_>,
    block: &mut Block,
    lines: &mut LineWriter,
    kept: &Kept,
    lemma: &mut Lemma,
) -> Result<(), WriteFault>
    requires place { CanPut (place_of target) (D.view desk.old) }
    requires fits { ForSome (λ k. All (LemmaFits k) kept.now) }
    requires room { All (HasRoom lemma.old) kept.now }
    ensures all { OnOk result (Gives (place_of target.entry)
        (block.old ++ flat_map lemma_line kept.now) block.new (D.view desk.old) (D.view desk.new)) }
    ensures some { OnErr result (GivesSome (place_of target.entry)
        (block.old ++ flat_map lemma_line kept.now) (D.view desk.old) (D.view desk.new)) }
    ensures failed { IsErrOf result Failed → Rose (D.view desk.old).write_faults (D.view desk.new).write_faults }
    ensures memory { IsErrOf result Short → Rose (D.view desk.old).shorts (D.view desk.new).shorts }
    ensures counts { KeepsUntold result (D.view desk.old) (D.view desk.new) }
    ensures only { OnlyPuts (place_of target.entry) (D.view desk.old) (D.view desk.new) }
{
    'lemmas: for at in 0..kept.len() {
        kept.fetch(at, lemma);
        block.add(desk, target, lines.lemma(lemma))?;
    }
    Ok(())
}

#[tactic(auto, using(crate::proofs::Rules::give_columns_rules))]
fn give_columns<D: Desk>(
    desk: &mut D,
    target: Target<'_>,
    block: &mut Block,
    lines: &mut LineWriter,
    steps: &[LogStep],
) -> Result<(), WriteFault>
    requires place { CanPut (place_of target) (D.view desk.old) }
    requires fits { ForSome (λ k. All (StepFits k) steps.now) }
    ensures all { OnOk result (Gives (place_of target.entry)
        (block.old ++ flat_map column_line steps.now) block.new (D.view desk.old) (D.view desk.new)) }
    ensures some { OnErr result (GivesSome (place_of target.entry)
        (block.old ++ flat_map column_line steps.now) (D.view desk.old) (D.view desk.new)) }
    ensures failed { IsErrOf result Failed → Rose (D.view desk.old).write_faults (D.view desk.new).write_faults }
    ensures memory { IsErrOf result Short → Rose (D.view desk.old).shorts (D.view desk.new).shorts }
    ensures counts { KeepsUntold result (D.view desk.old) (D.view desk.new) }
    ensures only { OnlyPuts (place_of target.entry) (D.view desk.old) (D.view desk.new) }
{
    'steps: for step in steps {
        block.add(desk, target, lines.column(step))?;
    }
    Ok(())
}

#[tactic(auto, using(crate::proofs::Rules::give_best_rules))]
fn give_best<D: Desk>(
    desk: &mut D,
    target: Target<'_>,
    block: &mut Block,
    lines: &mut LineWriter,
    best: &Option<Best>,
) -> Result<(), WriteFault>
    requires place { CanPut (place_of target) (D.view desk.old) }
    requires fits { ForSome (λ k. IfSome best.now (BestFits k)) }
    ensures all { OnOk result (Gives (place_of target.entry)
        (block.old ++ best_text best.now) block.new (D.view desk.old) (D.view desk.new)) }
    ensures some { OnErr result (GivesSome (place_of target.entry)
        (block.old ++ best_text best.now) (D.view desk.old) (D.view desk.new)) }
    ensures failed { IsErrOf result Failed → Rose (D.view desk.old).write_faults (D.view desk.new).write_faults }
    ensures memory { IsErrOf result Short → Rose (D.view desk.old).shorts (D.view desk.new).shorts }
    ensures counts { KeepsUntold result (D.view desk.old) (D.view desk.new) }
    ensures only { OnlyPuts (place_of target.entry) (D.view desk.old) (D.view desk.new) }
{
    let Some(best) = best else {
        return block.add(desk, target, lines.unfinished());
    };
    block.add(desk, target, lines.best(best.gaps))?;
    give_columns(desk, target, block, lines, best.steps.as_slice())
}

#[tactic(auto, using(crate::proofs::Rules::give_lines_rules))]
fn give_lines<D: Desk>(
    desk: &mut D,
    target: Target<'_>,
    block: &mut Block,
    lines: &mut LineWriter,
    lemma: &mut Lemma,
    name: &Name,
    log: &KeptLog,
) -> Result<(), WriteFault>
    requires place { CanPut (place_of target) (D.view desk.old) }
    requires name { IsLogName name.now }
    requires fits { ForSome (λ k. Fits k log.now) }
    requires room { All (HasRoom lemma.old) log.now.lemmas }
    ensures all { OnOk result (Gives (place_of target.entry)
        (block.old ++ log_text name.now log.now) block.new (D.view desk.old) (D.view desk.new)) }
    ensures some { OnErr result (GivesSome (place_of target.entry)
        (block.old ++ log_text name.now log.now) (D.view desk.old) (D.view desk.new)) }
    ensures failed { IsErrOf result Failed → Rose (D.view desk.old).write_faults (D.view desk.new).write_faults }
    ensures memory { IsErrOf result Short → Rose (D.view desk.old).shorts (D.view desk.new).shorts }
    ensures counts { KeepsUntold result (D.view desk.old) (D.view desk.new) }
    ensures only { OnlyPuts (place_of target.entry) (D.view desk.old) (D.view desk.new) }
{
    block.add(desk, target, lines.head(log.version, name))?;
    give_lemmas(desk, target, block, lines, &log.kept, lemma)?;
    give_best(desk, target, block, lines, &log.best)?;
    block.add(desk, target, lines.last())
}

// The lines, and then what the block still holds.
#[tactic(auto, using(crate::proofs::Rules::give_whole_rules))]
fn give_whole<D: Desk>(
    desk: &mut D,
    target: Target<'_>,
    block: &mut Block,
    lines: &mut LineWriter,
    lemma: &mut Lemma,
    name: &Name,
    log: &KeptLog,
) -> Result<(), WriteFault>
    requires place { CanPut (place_of target) (D.view desk.old) }
    requires ready { CanBeGiven name.now log.now lemma.old block.old }
    ensures all { OnOk result (Gives (place_of target.entry) (log_text name.now log.now) []
        (D.view desk.old) (D.view desk.new)) }
    ensures some { OnErr result (GivesSome (place_of target.entry) (log_text name.now log.now)
        (D.view desk.old) (D.view desk.new)) }
    ensures failed { IsErrOf result Failed → Rose (D.view desk.old).write_faults (D.view desk.new).write_faults }
    ensures memory { IsErrOf result Short → Rose (D.view desk.old).shorts (D.view desk.new).shorts }
    ensures counts { KeepsUntold result (D.view desk.old) (D.view desk.new) }
    ensures only { OnlyPuts (place_of target.entry) (D.view desk.old) (D.view desk.new) }
{
    give_lines(desk, target, block, lines, lemma, name, log)?;
    block.flush(desk, target)
}

impl LogText {
    /// The text of a log for the cell of that name.
    pub fn new(alloc: Global, name: &Name, log: KeptLog) -> Result<LogText, NoMemory>
        requires name { IsLogName name.now }
        requires fits { ForSome (λ k. Fits k log) }
        ensures { IfOk result (λ text. text ≡ log_text name.now log) }
    {
        let LogBuffers {
            name,
            lemma,
            lines,
            block,
        } = LogBuffers::new(alloc, name, &log.kept)?;
        Ok(LogText {
            name,
            log,
            lemma,
            lines,
            block,
        })
    }

    /// Puts the text at the end of the file, or says it. It takes no memory but what the desk itself takes.
    pub fn give<D: Desk>(self, desk: &mut D, target: Target<'_>) -> Result<(), WriteFault>
        requires { CanPut (place_of target) (D.view desk.old) }
        ensures all { OnOk result (Gives (place_of target.entry) self [] (D.view desk.old) (D.view desk.new)) }
        ensures some { OnErr result (GivesSome (place_of target.entry) self (D.view desk.old) (D.view desk.new)) }
        ensures failed { IsErrOf result Failed
            → Rose (D.view desk.old).write_faults (D.view desk.new).write_faults }
        ensures memory { IsErrOf result Short → Rose (D.view desk.old).shorts (D.view desk.new).shorts }
        ensures counts { KeepsUntold result (D.view desk.old) (D.view desk.new) }
        ensures only { OnlyPuts (place_of target.entry) (D.view desk.old) (D.view desk.new) }
    {
        let LogText {
            name,
            log,
            mut lemma,
            mut lines,
            mut block,
        } = self;
        let given = give_whole(
            desk, target, &mut block, &mut lines, &mut lemma, &name, &log,
        );
        // (calls, whose proofs are short: in place all parts of the two would be dropped one by one)
        drop(lemma);
        drop(lines);
        given
    }
}
