// What a measure of routes is.
ghost use Rattle.std.specs.Prelude.{◌≡◌, ℕ};
ghost use Rattle.rules.specs.declared.line.Line.{Line};
ghost use Rattle.walk.specs.Joins.{Laws};

use rules::line::Line;

/// A measure of routes: a value with which a route begins, what each line does to it, and how the values of two routes are joined.
/// Order and grouping of joins do not count, a value joined to itself is itself, and a line's effect on a join is the join of its effects.
pub trait Measure {
    /// What is measured.
    type Value: Copy;

    ghost begins: { Self.Value };

    ghost effect: { Self → ℕ → Line → Self.Value → Self.Value };

    ghost joined: { Self.Value → Self.Value → Self.Value };

    ghost laws: { (m : Self) → Laws joined (effect m) };

    /// The value with which a route begins.
    fn start(&self) -> Self::Value
        ensures { result ≡ begins };

    /// The value after a line, from the value before it.
    fn step(&self, at: usize, line: Line, v: Self::Value) -> Self::Value
        ensures { result ≡ effect self.now at line v };

    /// The join of two values.
    fn join(&self, a: Self::Value, b: Self::Value) -> Self::Value
        ensures { result ≡ joined a b };
}
