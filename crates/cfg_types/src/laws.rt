//! Laws of plain data, each on a call that shows it.
ghost use Rattle.std.specs.Prelude.{◌≡◌, ◌++◌, List, ℕ, Some, None, codes};
ghost use Rattle.std.specs.FinMap.{get};
ghost use Rattle.cfg_base.specs.Entries.{each_set, HasNoName, IsLastUnder};
ghost use Rattle.cfg_types.specs.Environment.{ListedVariables};
ghost use Rattle.cfg_types.specs.Addresses.{HasNoQuery, HasNoAt, shown_address};
ghost use Rattle.cfg_types.specs.Commands.{program, has_white_space, shown_command};
ghost use Rattle.cfg_types.specs.declared.environment.EnvText.{EnvText as Setting};

/// Environment variables of a list: the value of a name is the one that its last entry gives, and a
/// name that no entry has is not set.
pub fn the_last_value_of_a_name_counts()
    ensures set { (entries : ListedVariables) (name : List ℕ) (value : Setting) → IsLastUnder name value entries → get (each_set entries) name ≡ Some value }
    ensures unset { (entries : ListedVariables) (name : List ℕ) → HasNoName name entries → get (each_set entries) name ≡ None }
{}

/// What is shown of a command depends on nothing but the text before its first white space, and
/// whether there is any.
pub fn shown_commands_keep_their_arguments()
    ensures { (one other : List ℕ) → program one ≡ program other → has_white_space one ≡ has_white_space other → shown_command one ≡ shown_command other }
{}

/// An address is shown without its user information and its query, whatever these are.
pub fn an_address_is_shown_without_user_information_and_query()
    ensures { (user host query : List ℕ) → HasNoQuery user → HasNoQuery host → HasNoAt host → HasNoAt query →
        shown_address (user ++ codes "@" ++ host ++ codes "?" ++ query) ≡ codes "..@" ++ host ++ codes ".." }
{}
