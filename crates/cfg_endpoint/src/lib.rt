//! A local endpoint for tests, without sockets: the core of a container's endpoint and of the instance metadata
//! service, and devices over it. It stands on cfg_chain. The layers above may use that what it writes is read as what
//! it serves, and that each call of the default chain over it gives what it serves.
#![tactic(auto)]

mod devices;
mod document;
mod endpoint;
mod fault;
pub mod laws;
mod served;
mod tokens;

pub use cfg_types::OutOfMemory;
pub use devices::EndpointDevices;
pub use endpoint::Endpoint;
pub use fault::EndpointFault;
pub use served::Served;
