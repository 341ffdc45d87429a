#![tactic(auto)]

// Runs a table of plans and compares what is printed with what must be. A line of the table is a line of a plan and, after
// ' | ', its outcome ('ok' where there is none); an empty line begins the next plan, and a line that begins with '#' is a
// remark.
use register::draft::Draft;
use roster::grid::Grid;
use roster::schedule_book::ScheduleBook;
use roster::traits::Roster;
use std::alloc::Global;
use std::io::Read;
use text::answer::{OUTPUT_PER_BYTE, answer};

#[cfg(test)]
mod tests;

// A plan, and what must be printed for it.
#[derive(Drop)]
struct Case {
    plan: String,
    printed: String,
    lines: u32,
}

impl Case {
    fn new(heap: Global) -> Case {
        Case {
            plan: String::new(heap),
            printed: String::new(heap),
            lines: 0,
        }
    }

    // Takes one line of the table.
    fn push(&mut self, line: &str) -> anyhow::Result<()> {
        let (call, outcome) = line.split_once(" | ").unwrap_or((line, "ok"));
        writeln!(self.plan, "{call}")?;
        writeln!(self.printed, "{outcome}")?;
        self.lines = self.lines.saturating_add(1);
        Ok(())
    }

    // Whether the plan over that roster prints what it must.
    fn holds_over<R: Roster + Drop>(&self, heap: Global, roster: R) -> anyhow::Result<bool> {
        let plan = self.plan.as_bytes();
        let room = plan.len().saturating_mul(OUTPUT_PER_BYTE);
        let mut out = vec![in heap; 0u8; room]?;
        let Ok(written) = answer(roster, plan, &mut out) else {
            return Ok(false);
        };
        Ok(&out[..written] == self.printed.as_bytes())
    }
}

// How many lines and plans were as they must be, and how many plans were not.
#[derive(Debug, Clone, Copy, PartialEq, Eq, Default)]
struct Tally {
    lines: u32,
    plans: u32,
    wrong: u32,
}

impl Tally {
    // Runs a case over both rosters, and counts it.
    fn count(&mut self, rt: &HostRuntime, case: &Case) -> anyhow::Result<()> {
        if case.lines == 0 {
            return Ok(());
        }
        let heap = rt.alloc();
        if case.holds_over(heap, Grid::new())? && case.holds_over(heap, ScheduleBook::new())? {
            self.lines = self.lines.saturating_add(case.lines);
            self.plans = self.plans.saturating_add(1);
        } else {
            self.wrong = self.wrong.saturating_add(1);
            println!(rt; "not as it must be:\n{}", case.plan)?;
        }
        Ok(())
    }
}

fn run(rt: &HostRuntime) -> anyhow::Result<Tally> {
    let heap = rt.alloc();
    let mut table = String::new(heap);
    rt.stdin().read_to_string(&mut table)?;
    let mut tally = Tally::default();
    let mut case = Case::new(heap);
    for line in table.as_str().lines() {
        if line.is_empty() {
            tally.count(rt, &case)?;
            case = Case::new(heap);
        } else if !line.starts_with('#') {
            case.push(line)?;
        }
    }
    tally.count(rt, &case)?;
    Ok(tally)
}

// Whether a register takes 1,000,000,000 ticks, and refuses the next with 32.
fn clock_ends() -> bool {
    let mut register = Draft::begin(Grid::new()).force();
    for _ in 0..1_000_000_000u32 {
        if register.tick().is_err() {
            return false;
        }
    }
    register.tick().is_err_and(|refusal| refusal.number() == 32)
}

fn main(rt: HostRuntime) -> anyhow::Result<()> {
    let Tally {
        lines,
        plans,
        wrong,
    } = run(&rt)?;
    println!(rt; "{lines} lines in {plans} plans as they must be, {wrong} plans not")?;
    println!(rt; "the clock ends where it must: {}", clock_ends())?;
    Ok(())
}
