use super::Same;
use cfg_types::{CallSettings, Region, Timeouts};

impl Same for Region {
    #[tactic(auto, using(crate::proofs::Sameness::same_list))]
    fn same(&self, other: &Region) -> bool {
        self == other
    }
}

impl Same for Timeouts {
    fn same(&self, other: &Timeouts) -> bool {
        self.connect_ms.same(&other.connect_ms)
            && self.read_ms.same(&other.read_ms)
            && self.operation_ms.same(&other.operation_ms)
            && self.attempt_ms.same(&other.attempt_ms)
    }
}

impl Same for CallSettings {
    fn same(&self, other: &CallSettings) -> bool {
        self.region.same(&other.region)
            && self.use_fips.same(&other.use_fips)
            && self.use_dual_stack.same(&other.use_dual_stack)
            && self.max_attempts.same(&other.max_attempts)
            && self.timeouts.same(&other.timeouts)
    }
}
