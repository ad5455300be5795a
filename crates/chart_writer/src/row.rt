// Automata, states, transitions and the whole drawing as the lines that they are written in.
ghost use Rattle.chart.specs.Plans.{plan_of, transition_plan};
ghost use Rattle.chart_text.specs.Texts.{automaton_text, state_text, transition_text, text_of};

use super::fault::WriteFault;
use super::sink::Sink;
use super::spell::{Line, Rows, Spell};
use chart::drawing::{Automaton, Drawing, State, Transition};
use chart_text::count::Natural;
use chart_text::line::Key;
use format::value::Single;

impl Spell for Automaton {
    ghost spelling = { automaton_text };

    #[inline(always)]
    fn spell<S: Sink>(&self, sink: &mut S) -> Result<(), WriteFault> {
        Line(Key::Under, Single { item: self.parent }).spell(sink)?;
        Line(Key::First, Single { item: self.initial }).spell(sink)
    }
}

impl Spell for State {
    ghost spelling = { state_text };

    #[inline(always)]
    fn spell<S: Sink>(&self, sink: &mut S) -> Result<(), WriteFault> {
        let item = self.automaton;
        Line(Key::In, Single { item }).spell(sink)
    }
}

impl Spell for Transition {
    ghost spelling = { λ t. transition_text (transition_plan t) };

    #[inline(always)]
    fn spell<S: Sink>(&self, sink: &mut S) -> Result<(), WriteFault> {
        Line(Key::From, Single { item: self.source }).spell(sink)?;
        Line(Key::With, self.source_restriction).spell(sink)?;
        Line(Key::On, Single { item: self.trigger }).spell(sink)?;
        Line(Key::If, self.guard).spell(sink)?;
        Line(Key::Do, self.actions).spell(sink)?;
        Line(Key::To, Single { item: self.target }).spell(sink)?;
        Line(Key::Into, self.target_determinator).spell(sink)
    }
}

impl Spell for Drawing {
    ghost spelling = { λ d. text_of (plan_of d) };

    #[inline(always)]
    fn spell<S: Sink>(&self, sink: &mut S) -> Result<(), WriteFault> {
        Line(Key::Chart, self.name).spell(sink)?;
        let events = Natural::new(self.events);
        Line(Key::Events, Single { item: events }).spell(sink)?;
        let automata = Natural::new(self.automata.len());
        Line(Key::Automata, Single { item: automata }).spell(sink)?;
        let states = Natural::new(self.states.len());
        Line(Key::States, Single { item: states }).spell(sink)?;
        let transitions = Natural::new(self.transitions.len());
        Line(Key::Transitions, Single { item: transitions }).spell(sink)?;
        Rows(self.automata.as_slice()).spell(sink)?;
        Rows(self.states.as_slice()).spell(sink)?;
        Rows(self.transitions.as_slice()).spell(sink)
    }
}
