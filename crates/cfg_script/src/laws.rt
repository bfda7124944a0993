//! A law of the script's faults, on a call that carries it.
ghost use Rattle.std.specs.Prelude.{◌↔◌, ℕ, List, IsSome, IsNone};
ghost use Rattle.cfg_script.specs.Endpoints.{endpoint_of, endpoint_fault_of};
ghost use Rattle.cfg_script.specs.Reading.{script_of, fault_of, share_of, share_fault_of, audit_of, audit_fault_of};

/// There is a fault exactly where the bytes are no script, exactly where they are none of several callers or of an
/// audit, and exactly where they are no object of an endpoint.
pub fn a_fault_is_told_where_there_is_no_script()
    ensures script { (bytes : List ℕ) → IsSome (fault_of bytes) ↔ IsNone (script_of bytes) }
    ensures share { (bytes : List ℕ) → IsSome (share_fault_of bytes) ↔ IsNone (share_of bytes) }
    ensures audit { (bytes : List ℕ) → IsSome (audit_fault_of bytes) ↔ IsNone (audit_of bytes) }
    ensures endpoint { (bytes : List ℕ) → IsSome (endpoint_fault_of bytes) ↔ IsNone (endpoint_of bytes) }
{}
