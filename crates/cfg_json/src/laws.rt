//! Laws of the grammar, each on a call that shows it.
ghost use Rattle.std.specs.Prelude.{◌≡◌, ◌↔◌, ℕ, ◌-◌, List, Some, ◌∷◌, ◌++◌, map, length, true, None, All};
ghost use Rattle.std.specs.Str.{encode_utf8_all, all_scalars};
ghost use Rattle.cfg_json.specs.declared.member.Member.{Member};
ghost use Rattle.cfg_base.specs.Moment.{Moment};
ghost use Rattle.cfg_json.specs.Dates.{IsDateText, IsOffsetDateText, IsWrittenDate};
ghost use Rattle.cfg_json.specs.Documents.{date_in, offset_date_in};
ghost use Rattle.cfg_json.specs.Strings.{IsString};
ghost use Rattle.cfg_json.specs.Writing.{quoted, braced};
ghost use Rattle.cfg_json.specs.WrittenObjects.{WrittenObject, members_text, HasScalars, Nests, told, told_member};
ghost use Rattle.cfg_json.specs.Objects.{IsObject, HasObject};
ghost use Rattle.cfg_json.specs.Places.{between};
ghost use Rattle.cfg_json.specs.Lookups.{text_under, number_under, last_text, last_number, GivesNothing, IsLastGiven};
ghost use Rattle.cfg_json.specs.declared.member.MemberValue.TheVariants.{Object};

/// Some bytes have one list of members, and one end of the object.
pub fn one_list()
    ensures { (bytes : List ℕ) (list : List Member) (end : ℕ) (other : List Member) (place : ℕ)
        → HasObject bytes list end → HasObject bytes other place → (list ≡ other) × (end ≡ place) }
{}

/// No text of an object begins another.
pub fn no_object_begins_another()
    ensures { (at : ℕ) (t u x y : List ℕ) (list other : List Member)
        → IsObject at t list → IsObject at u other → t ++ x ≡ u ++ y → (t ≡ u) × (list ≡ other) × (x ≡ y) }
{}

/// The bytes of a member that is an object, from the place where it begins to the place where it
/// ends, are an object, which can be read in turn.
pub fn members_that_are_objects_hold_objects()
    ensures { (bytes : List ℕ) (before after : List Member) (m : Member) (end from to : ℕ)
        → HasObject bytes (before ++ m ∷ after) end → m.value ≡ Object from to
        → (inner : List Member) × HasObject (between bytes from to) inner (to - from) }
{}

/// What is written for a moment stands for it, and so `parse_date` gives the moment back.
pub fn written_dates_stand_for_their_moments()
    ensures { (text : List ℕ) (m : Moment) → IsWrittenDate text m → IsDateText text m }
{}

/// A text of a date stands for one moment.
pub fn dates_stand_for_one_moment()
    ensures { (text : List ℕ) (m n : Moment) → IsOffsetDateText text m → IsOffsetDateText text n → m ≡ n }
{}

/// A document's date is the moment that its text stands for, in UTC, and in a process document also
/// with an offset.
pub fn documents_read_dates_as_they_stand()
    ensures utc { (text : List ℕ) (m : Moment) → all_scalars text ≡ true → (date_in text ≡ Some m) ↔ IsDateText text m }
    ensures offset { (text : List ℕ) (m : Moment) → all_scalars text ≡ true → (offset_date_in text ≡ Some m) ↔ IsOffsetDateText text m }
{}

/// A string that is written is, in UTF-8, a string of these characters.
pub fn written_strings_are_read_back()
    ensures { (text : List ℕ) → all_scalars text ≡ true → IsString (encode_utf8_all (quoted text)) text }
{}

/// What is written for an object is read back, where it nests no deeper than a reader goes: each
/// text under its key, each object as one, in their order.
pub fn written_objects_are_read_back()
    ensures { (w : WrittenObject) → HasScalars w → Nests w 127
        → (list : List Member) × (end : ℕ) × HasObject (encode_utf8_all (braced (members_text w))) list end
        × (end ≡ length (encode_utf8_all (braced (members_text w)))) × (map told_member list ≡ told w) }
{}

/// The text under a name, or under another one, is that of the last member of these names whose
/// value is a text, and there is none exactly where no such member has one. The number alike.
pub fn the_last_of_a_name_counts()
    ensures text { (name other : List ℕ) (members : List Member) (text : List ℕ)
        → (last_text name other members ≡ Some text) ↔ IsLastGiven (text_under name other) members text }
    ensures no_text { (name other : List ℕ) (members : List Member)
        → (last_text name other members ≡ None) ↔ All (GivesNothing (text_under name other)) members }
    ensures number { (name : List ℕ) (members : List Member) (number : List ℕ)
        → (last_number name members ≡ Some number) ↔ IsLastGiven (number_under name) members number }
    ensures no_number { (name : List ℕ) (members : List Member) → (last_number name members ≡ None) ↔ All (GivesNothing (number_under name)) members }
{}
