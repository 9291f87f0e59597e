ghost use Rattle.std.specs.Prelude.{◌≡◌, ◌≢◌, ◌<◌, ◌≤◌, ◌==◌, ◌^◌, false, ℕ, List, All};
ghost use Rattle.std.specs.List.{list_any, AllByRecursion};
ghost use Rattle.ccr_commit.specs.Entries.{texts_of};
ghost use Rattle.ccr_text.specs.TableText.{AreRows, IsTable, table_text};
ghost use Rattle.cl_base.specs.Keys.{key_of};
ghost use Rattle.cl_base.specs.Limits.{most_nodes};
ghost use Rattle.cl_base.specs.Sets.{has};
ghost use Rattle.wire.specs.declared.lists.Reading.{Reading};
ghost use Rattle.wire.specs.declared.message.Install.{Install};
ghost use Rattle.cmm_member.specs.Nodes.{NodeState, AreOfDevices, IsKeyOf, IsOneOf, has_key_of, joins, devices_after};
ghost use Rattle.cmm_member.specs.Lengths.{NoRecordIsLonger, RecordsHaveTheirLength};
ghost use Rattle.cmm_member.specs.Records.{NodeRecord, IsRecord, IsRecordText, IsRowText, rows_of};

/// A text is the table of one record at most. So a node that boots from the text of its own record's
/// rows has that record again.
pub fn record_is_read_back()
    ensures one { (text : List ℕ) (saves others : ℕ) (a b : NodeRecord) → IsRecord a → IsRecord b → IsTable text saves (rows_of a) → IsTable text others (rows_of b) → a ≡ b }
{}

/// The rows of a record are those of a table where each update has at most 65,535 bytes, and none of
/// them is a tab or a newline. So the table's text is one from which a node boots.
pub fn rows_are_a_table()
    ensures table { (r : NodeRecord) → IsRecord r → All IsRowText (texts_of r.entries) → AreRows (rows_of r) }
    ensures text { (r : NodeRecord) (saves : ℕ) → IsRecord r → saves < 2 ^ 64 → All IsRowText (texts_of r.entries) → IsRecordText (table_text saves (rows_of r)) }
{}

/// What an install decides of each device, where no device was read twice: one that was read is valid
/// and joined exactly where the node joins it by the install itself; another is as valid as it was, and
/// not joined.
pub fn install_decides()
    ensures valid { (s : NodeState) (i : Install) (r : Reading) → s.saved.valid < 2 ^ 16 → AreOfDevices i.readings → IsOneOf r i.readings → has (devices_after s i).valid r.device ≡ joins s.me s.saved.valid r }
    ensures joined { (s : NodeState) (i : Install) (r : Reading) → s.saved.valid < 2 ^ 16 → AreOfDevices i.readings → IsOneOf r i.readings → has (devices_after s i).joined r.device ≡ joins s.me s.saved.valid r }
    ensures stays_valid { (s : NodeState) (i : Install) (d : ℕ) → s.saved.valid < 2 ^ 16 → AreOfDevices i.readings → All (λ r. r.device ≢ d) i.readings → has (devices_after s i).valid d ≡ has s.saved.valid d }
    ensures not_joined { (s : NodeState) (i : Install) (d : ℕ) → s.saved.valid < 2 ^ 16 → AreOfDevices i.readings → All (λ r. r.device ≢ d) i.readings → has (devices_after s i).joined d ≡ false }
{}

/// Where all keys are of nodes of one cluster, a node knows its own by the lower half of the number.
pub fn own_key_by_its_lower_half()
    ensures own { (cluster me : ℕ) (keys : List ℕ) → me ≤ most_nodes → AllByRecursion (IsKeyOf cluster) keys → has_key_of me keys ≡ list_any (λ key. key == key_of cluster me) keys }
{}

/// The length of the text of a record's table.
pub fn records_have_their_length()
    ensures length { RecordsHaveTheirLength }
{}

/// A record's text is never longer than that of a record with the same updates, or with more after
/// them, all of them committed, where every node is a member, every device is valid, and the number
/// of saves and both epochs have 20 digits. It supposes that these three are below 2^63, as all of
/// them are, and that there is a member.
pub fn no_record_is_longer()
    ensures bound { NoRecordIsLonger }
{}
