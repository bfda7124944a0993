//! Laws, each on a call that carries it.
ghost use Rattle.std.specs.Prelude.{◌≡◌, ◌⊎◌, ℕ, List, Ok, Err, Some, ◌-◌};
ghost use Rattle.std.specs.Str.{encode_utf8_all};
ghost use Rattle.cfg_json.specs.declared.member.Member.{Member};
ghost use Rattle.cfg_json.specs.Answers.{list_answer};
ghost use Rattle.cfg_types.specs.declared.document.JsonError.{JsonError};
ghost use Rattle.cfg_types.specs.declared.document.JsonError.TheVariants as json;
ghost use Rattle.cfg_json.specs.Objects.{HasObject};
ghost use Rattle.cfg_json.specs.Places.{between};
ghost use Rattle.cfg_login_token.specs.declared.login_token.LoginToken.{LoginToken};
ghost use Rattle.cfg_login_token.specs.Access.{last_place, members_in};
ghost use Rattle.cfg_login_token.specs.LoginFile.{login_file};
ghost use Rattle.cfg_login_token.specs.LoginText.{IsLoginText, IsOfFile};

/// What stands at the place of a member that is an object is an object, and its members are those
/// that are read there.
pub fn objects_are_read_where_they_stand()
    ensures { (bytes name : List ℕ) (members : List Member) (end from to : ℕ) → HasObject bytes members end → last_place name members ≡ Some (from, to) →
        HasObject (between bytes from to) (members_in (between bytes from to)) (to - from) }
{}

/// What is written for a token is read back as this token, where it is as a file gives it: credentials
/// from `Login` with an end, a session token and an account, texts of Unicode characters, and a key in
/// which no backslash is followed by `n`.
pub fn written_tokens_are_read_back()
    ensures { (token : LoginToken) (text : List ℕ) → IsOfFile token → IsLoginText token text → login_file (encode_utf8_all text) ≡ Ok token }
{}

/// A file at whose front no object stands is refused as no object, or for its syntax: never since memory ran
/// out, and never for what follows an object.
pub fn a_file_is_refused_for_its_front()
    ensures { (bytes : List ℕ) (e : JsonError) → list_answer bytes ≡ Err e → (e ≡ json.NotObject) ⊎ (e ≡ json.Syntax) }
{}
