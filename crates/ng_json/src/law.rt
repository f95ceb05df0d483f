ghost use Rattle.std.specs.Prelude.{◌≤◌};
ghost use Rattle.ng_bencode.specs.Tree.{Tree, depth};
ghost use Rattle.ng_json.specs.Order.{IsInByteOrder};
ghost use Rattle.ng_json.specs.Twins.{SaysInJson};
ghost use Rattle.ng_json.specs.JsonText.{IsSorted, json_text};

/// What was written is read as the value that it was written for, where the keys of its dictionaries stand in byte order, each once.
pub fn written_is_read()
    ensures { (tree : Tree) → IsSorted tree → depth tree ≤ 16 → SaysInJson (json_text tree) tree }
{}

/// What is written has the values and the members of the value that it was written for, the members of each object in the byte order of
/// their keys as they are written.
pub fn members_stand_in_byte_order()
    ensures { (tree : Tree) → IsInByteOrder tree }
{}
