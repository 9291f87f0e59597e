//! What follows from the rule by which lines are made.
ghost use Rattle.std.specs.Prelude.{◌≡◌, ◌+◌, ◌≤◌, ℕ, Some};
ghost use Rattle.schedule_text.specs.declared.header.Head.TheVariants.{Cluster};
ghost use Rattle.schedule_text.specs.declared.header.HeaderState.TheVariants.{Opening, Devices};
ghost use Rattle.schedule_text.specs.Headers.{Over, header_step, head_of};
ghost use Rattle.schedule_gen.specs.Grammar.{Leads, AreRead, AreReadAs, four_nodes, start, lines_from};
ghost use Rattle.schedule_gen.specs.Events.{events_from};
ghost use Rattle.schedule_gen.specs.Lines.{line_at};

/// With at most 90,000 lines after the opening each seed gives a schedule of the grammar. The first
/// five lines are a whole header, which ends before the sixth. Each later line is one that the
/// grammar has for this header, with the clock and the rounds of the lines before it, and is read as
/// the event that its draw means.
pub fn lines_are_in_the_grammar()
    ensures header { (seed : ℕ) → Leads Opening (lines_from seed 0 5) (Devices four_nodes) }
    ensures whole { head_of (Devices four_nodes) ≡ Some (Cluster four_nodes) }
    ensures ends { (seed : ℕ) → header_step (Devices four_nodes) (line_at seed 5) ≡ Over }
    ensures lines { (seed count : ℕ) → count ≤ 90000 → AreRead (Cluster four_nodes) start (lines_from seed 5 (5 + count)) }
    ensures events { (seed count : ℕ) → count ≤ 90000 → AreReadAs (Cluster four_nodes) start (lines_from seed 5 (5 + count)) (events_from seed 5 (5 + count)) }
{}
