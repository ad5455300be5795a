// The lines of one automaton, one state or one transition, and as many of them as a count says.
ghost use Rattle.std.specs.Prelude.{ℕ, ◌+◌, ◌*◌, ◌<◌, ◌≤◌, map, length};
ghost use Rattle.std.proofs.Common.{rules};
ghost use Rattle.fixed.specs.Items.{items, most};
ghost use Rattle.format.specs.Readers.{Reader};
ghost use Rattle.chart.specs.Plans.{TransitionPlan, transition_plan};
ghost use Rattle.chart_text.specs.declared.count.Counts.{Counts};
ghost use Rattle.chart.specs.declared.drawing.Automaton.{Automaton};
ghost use Rattle.chart.specs.declared.drawing.State.{State};
ghost use Rattle.chart_reader.specs.Inner.{Gives, more_rows};
ghost use Rattle.chart_reader.specs.Verdicts.{automaton_lines, state_lines, transition_lines};

use super::field::field;
use chart::drawing::{Automaton, State, Transition};
use chart_text::count::Counts;
use chart_text::line::Key;
use fixed::array_vec::ArrayVec;
use format::fault::TextFault;
use format::line::Lines;
use format::value::Single;

// Some lines that are read together.
pub(super) trait Row: Copy {
    ghost Said: { Type 0 };

    ghost said: { Self → Said };

    // how many lines there are
    ghost height: { ℕ };

    ghost reads: { Counts → Reader Said };

    fn read_row(lines: &mut Lines<'_>, counts: Counts) -> Result<Self, TextFault>
        requires { lines.old.number < 60000 }
        ensures { Gives said height (reads counts lines.old.number lines.old.rest.now) lines.old lines.new result };

    ghost short: { height ≤ 8 };
}

impl Row for Automaton {
    ghost Said = { Automaton };

    ghost said = { λ a. a };

    ghost height = { 2 };

    ghost reads = { automaton_lines };

    ghost short = { Prim.search rules };

    fn read_row(lines: &mut Lines<'_>, counts: Counts) -> Result<Self, TextFault> {
        let Single { item: parent } = field(lines, Key::Under, counts.states)?;
        let Single { item: initial } = field(lines, Key::First, counts.states)?;
        Ok(Automaton { parent, initial })
    }
}

impl Row for State {
    ghost Said = { State };

    ghost said = { λ s. s };

    ghost height = { 1 };

    ghost reads = { state_lines };

    ghost short = { Prim.search rules };

    fn read_row(lines: &mut Lines<'_>, counts: Counts) -> Result<Self, TextFault> {
        let Single { item: automaton } = field(lines, Key::In, counts.automata)?;
        Ok(State { automaton })
    }
}

impl Row for Transition {
    ghost Said = { TransitionPlan };

    ghost said = { transition_plan };

    ghost height = { 7 };

    ghost reads = { transition_lines };

    ghost short = { Prim.search rules };

    fn read_row(lines: &mut Lines<'_>, counts: Counts) -> Result<Self, TextFault> {
        let Single { item: source } = field(lines, Key::From, counts.states)?;
        let source_restriction = field(lines, Key::With, counts.states)?;
        let Single { item: trigger } = field(lines, Key::On, counts.events)?;
        let guard = field(lines, Key::If, counts.states)?;
        let actions = field(lines, Key::Do, counts.events)?;
        let Single { item: target } = field(lines, Key::To, counts.states)?;
        let target_determinator = field(lines, Key::Into, counts.states)?;
        Ok(Transition {
            source,
            source_restriction,
            trigger,
            guard,
            actions,
            target,
            target_determinator,
        })
    }
}

// As many rows as the count says, behind those that are there.
// kept: the counts stay while the lines move on, so one struct of both would be no plainer in what is promised.
pub(super) fn read_rows<R: Row, const N: usize>(
    rows: &mut ArrayVec<R, N>,
    lines: &mut Lines<'_>,
    counts: Counts,
    count: u8,
) -> Result<(), TextFault>
    requires room { length (items rows.old) + count ≤ most N }
    requires numbers { lines.old.number + 8 * count < 60000 }
    ensures { Gives (λ _. map R.said (items rows.new)) (R.height * count) (more_rows R.said R.height (R.reads counts) (items rows.old) count lines.old.number lines.old.rest.now) lines.old lines.new result }
{
    for _ in 0..count {
        let row = R::read_row(lines, counts)?;
        rows.push(row).unwrap();
    }
    Ok(())
}
