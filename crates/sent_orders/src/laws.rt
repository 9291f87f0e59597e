ghost use Rattle.std.specs.Prelude.{◌≡◌, ◌≤◌, ◌<◌, ◌+◌, ◌*◌, ℕ, List, Option, length, true, false};
ghost use Rattle.sent_orders.specs.Ages.{with_sent};
ghost use Rattle.sent_orders.specs.Ticks.{is_due, ticks};

/// An order goes again at the fourth tick after it was sent, and then at each fourth tick, and at no
/// other.
pub fn an_order_goes_again_at_each_fourth_tick()
    ensures due { (ages : List (Option ℕ)) (n k : ℕ) → 1 ≤ n → n ≤ length ages → is_due (ticks (with_sent ages n) (4 * k + 3)) n ≡ true }
    ensures early { (ages : List (Option ℕ)) (n k r : ℕ) → 1 ≤ n → n ≤ length ages → r < 3 → is_due (ticks (with_sent ages n) (4 * k + r)) n ≡ false }
{}
