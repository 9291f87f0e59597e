ghost use Rattle.std.specs.Prelude.{◌≡◌, ◌++◌, List, ℕ, map};
ghost use Rattle.std.specs.List.{AllByRecursion, flat_map};
ghost use Rattle.status_report.specs.declared.entry.Entry.{Entry};
ghost use Rattle.status_report.specs.Entries.{IsEntry, IsOneLine};
ghost use Rattle.status_report.specs.Examples as examples;
ghost use Rattle.status_report.specs.Lines.{entry_text, printed};

/// Each entry prints as one line: its last byte is a newline, and no other is.
pub fn each_entry_is_one_line()
    ensures line { (e : Entry) → IsEntry e → IsOneLine (printed e) }
{}

/// No two entries print alike, bytes begin with the line of one entry at most, and no two traces have
/// the same bytes: the entries of a trace are read off them.
pub fn no_two_print_alike()
    ensures apart { (a b : Entry) (x y : List ℕ) → IsEntry a → IsEntry b → printed a ++ x ≡ printed b ++ y → (a ≡ b) × (x ≡ y) }
    ensures trace { (es fs : List Entry) → AllByRecursion IsEntry es → AllByRecursion IsEntry fs → flat_map printed es ≡ flat_map printed fs → es ≡ fs }
    ensures alike { (a b : Entry) → IsEntry a → IsEntry b → printed a ≡ printed b → a ≡ b }
{}

/// The entries of the examples print as the lines that are wanted of them, each without its newline.
pub fn examples_print_as_wanted()
    ensures nodes { map (λ e. entry_text e.0) examples.nodes ≡ map (λ e. e.1) examples.nodes }
    ensures packets { map (λ e. entry_text e.0) examples.packets ≡ map (λ e. e.1) examples.packets }
    ensures devices { map (λ e. entry_text e.0) examples.devices ≡ map (λ e. e.1) examples.devices }
    ensures memberships { map (λ e. entry_text e.0) examples.memberships ≡ map (λ e. e.1) examples.memberships }
    ensures answers { map (λ e. entry_text e.0) examples.calls_and_answers ≡ map (λ e. e.1) examples.calls_and_answers }
    ensures statuses { map (λ e. entry_text e.0) examples.statuses ≡ map (λ e. e.1) examples.statuses }
    ensures others { map (λ e. entry_text e.0) examples.others ≡ map (λ e. e.1) examples.others }
{}
