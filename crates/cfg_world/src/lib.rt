//! The world outside: questions to devices and their answers, the journal that keeps both, scripted
//! devices, and sources and sinks of bytes. It stands on cfg_types. The layers above may use that an
//! answered question is one true entry of the journal, that devices which stood for the journal go on
//! standing for it, and the rules by which a body follows a tree of questions.
#![tactic(auto)]

pub mod answers;
pub mod ask;
pub mod asking;
pub mod devices;
pub mod entry;
pub mod faulty;
pub mod fitting;
pub mod handed;
pub mod laws;
pub mod leaves;
pub mod local;
pub mod same;
pub mod script;
pub mod streams;
mod tally;
pub mod world;

pub use answers::Answers;
pub use ask::{Answer, Question};
pub use asking::{Asking, Halt, Stop};
pub use cfg_types::{
    Address, AssumeRole, AssumeRoleWithWebIdentity, CallSettings, CreateOAuth2Token, CreateToken,
    FailKind, Fault, Finished, GetRoleCredentials, Header, Http, HttpReply, MetadataGet,
    MetadataToken, OutOfMemory, Refusal, RefusalKind, Reply, Request, RoleCredentials, RoleReply,
    SignInReply, SignInToken, StsCredentials, StsReply, Tag, Timeouts, TokenReply,
};
pub use devices::Devices;
pub use entry::{Entry, Receipt};
pub use faulty::FaultDevices;
pub use handed::HandedDevices;
pub use leaves::{
    NotGranted, assume_role, assume_role_with_web_identity, create_oauth2_token, create_token,
    fetch, fetch_metadata, fetch_metadata_token, get_role_credentials, look_up, read_clock,
    read_file, read_jitter, run_command, send, write_file,
};
pub use local::LocalDevices;
pub use script::{DeviceLists, ScriptDevices};
pub use streams::{MemorySink, MemorySource, ReaderSource, Sink, Source, StreamFault, WriterSink};
pub use world::World;
