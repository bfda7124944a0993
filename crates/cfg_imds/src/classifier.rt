//! The classifier of a client.
ghost use Rattle.std.specs.Prelude.{◌≡◌, Option, Bool, option_map};

use cfg_exchange::{ClassifyRetry, ImdsResponseRetryClassifier, Reading};
use cfg_types::HttpReply;

/// A classifier that a caller brings.
pub type BoxedClassifier = Box<dyn ClassifyRetry + Send + Sync + Drop>;

/// The classifier of a client: its own one, or one that was handed in.
#[derive(Drop)]
pub enum Classifier {
    /// The client's own one.
    Own(ImdsResponseRetryClassifier),
    /// The one that was handed in.
    Boxed(BoxedClassifier),
}

impl ClassifyRetry for Classifier {
    ghost use Rattle.cfg_imds.specs.Classifiers.{repeated_by, named_by};

    ghost repeated = { repeated_by (λ b. (ClassifyRetry-box b).repeated b.value) };

    ghost named = { named_by (λ b. (ClassifyRetry-box b).named b.value) };

    fn name(&self) -> &str {
        match self {
            Classifier::Own(own) => own.name(),
            Classifier::Boxed(boxed) => boxed.name(),
        }
    }

    fn repeats(&self, reply: Option<&HttpReply>, reading: Reading) -> bool {
        match self {
            Classifier::Own(own) => own.repeats(reply, reading),
            Classifier::Boxed(boxed) => boxed.repeats(reply, reading),
        }
    }
}
