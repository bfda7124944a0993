//! Laws of what errors tell, each on a call that carries it.
ghost use Rattle.std.specs.Prelude.{◌≡◌, ℕ, List, Some};
ghost use Rattle.cfg_types.specs.declared.errors.profile.ProfileFileError.{ProfileFileError as Told};
ghost use Rattle.cfg_types.specs.ErrorTexts.{profile_text};
ghost use Rattle.cfg_types.specs.declared.errors.CredentialsError.{CredentialsError as Error};
ghost use Rattle.cfg_error_report.specs.Words.{profile_words};
ghost use Rattle.cfg_error_report.specs.Blanks.{blanked};
ghost use Rattle.cfg_error_report.specs.CredentialsCauses.{causes_of};

/// The text of a profile's error is the one that it is shown by, where it is known which: std leaves open how
/// Debug writes names beyond ASCII.
pub fn a_profiles_error_is_told_as_it_is_shown()
    ensures { (error : Told) (text : List ℕ) → profile_text error ≡ Some text → profile_words error ≡ text }
{}

/// What an error tells depends neither on the headers and the body of a reply, nor on a path or an ARN that a
/// reply gave: it is the same without them.
pub fn what_is_told_is_of_no_reply()
    ensures { (error : Error) → causes_of (blanked error) ≡ causes_of error }
{}
