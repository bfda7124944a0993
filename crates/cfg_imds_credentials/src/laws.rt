//! Laws of a provider of metadata credentials, each on a call that carries it.
ghost use Rattle.std.specs.Prelude.{◌≡◌, ◌↔◌, List, true, is_ok};
ghost use Rattle.cfg_world.specs.Fits.{Pair};
ghost use Rattle.cfg_kept.specs.Kinds.{Value};
ghost use Rattle.cfg_kept.specs.KeptInquiry.{Reads};
ghost use Rattle.cfg_providers.specs.CustomSources.{Answer};
ghost use Rattle.cfg_types.specs.Classes.{is_not_loaded_answer};
ghost use Rattle.cfg_imds_credentials.specs.Settings.{MetadataSetting};
ghost use Rattle.cfg_imds_credentials.specs.Metadata.{metadata};
ghost use Rattle.cfg_imds_credentials.specs.Causes.{CauseMetadata};
ghost use Rattle.cfg_imds_credentials.specs.PassedOver.{IsPassedOver};
ghost use Rattle.cfg_imds_credentials.specs.Valid.{IsValid};

/// Each answer has its cause over the values that were found and the part.
pub fn an_answer_of_metadata_has_its_cause()
    ensures { (s : MetadataSetting) (found : List Value) (part : List Pair) (out : Answer) →
        Reads (metadata s) found part out → CauseMetadata s found part out }
{}

/// A provider of metadata credentials is passed over where it is switched off, where its listing answers
/// 404, or where the listing's token request could not be sent, and nothing retrieved was found; and
/// nowhere else.
pub fn metadata_is_passed_over_by_its_line()
    ensures { (s : MetadataSetting) (found : List Value) (part : List Pair) (out : Answer) →
        Reads (metadata s) found part out → (is_not_loaded_answer out ≡ true) ↔ IsPassedOver s found part }
{}

/// Where nothing stands in the way, said of what the provider is set to and of the journal's entries, it
/// gives credentials.
pub fn nothing_in_the_way_of_metadata_gives_credentials()
    ensures { (s : MetadataSetting) (found : List Value) (part : List Pair) (out : Answer) →
        Reads (metadata s) found part out → IsValid s part → is_ok out ≡ true }
{}
