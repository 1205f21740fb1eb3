// Two measures carried together.
ghost use Rattle.measures.specs.Lawful.{both_laws};
ghost use Rattle.measures.specs.Models.{paired, beside};

use rules::line::Line;
use walk::measure::Measure;

/// Two measures carried together; their pair is a measure again.
#[derive(Clone, Copy)]
pub struct Both<P, Q> {
    pub first: P,
    pub second: Q,
}

impl<P: Measure, Q: Measure> Measure for Both<P, Q> {
    type Value = (P::Value, Q::Value);

    ghost begins = { (P.Measure.begins, Q.Measure.begins) };

    ghost effect = { λ m. beside (P.Measure.effect m.first) (Q.Measure.effect m.second) };

    ghost joined = { paired P.Measure.joined Q.Measure.joined };

    ghost laws = { λ m. both_laws (P.Measure.laws m.first) (Q.Measure.laws m.second) };

    fn start(&self) -> (P::Value, Q::Value) {
        (self.first.start(), self.second.start())
    }

    fn step(&self, at: usize, line: Line, v: (P::Value, Q::Value)) -> (P::Value, Q::Value) {
        (
            self.first.step(at, line, v.0),
            self.second.step(at, line, v.1),
        )
    }

    fn join(&self, a: (P::Value, Q::Value), b: (P::Value, Q::Value)) -> (P::Value, Q::Value) {
        (self.first.join(a.0, b.0), self.second.join(a.1, b.1))
    }
}
