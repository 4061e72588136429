//! The hooks of a fleet, each with the law within which its answers are: closures, fixed answers, or the southern rule.
//! Only the lists of `Hooks` allocate. No function here makes a closure: a program or a test does.
#![tactic(auto)]

mod arrival;
mod farewell;
mod hooks;
mod kind;
mod law;
mod tie;
mod views;

pub use arrival::ArrivalHook;
pub use farewell::Farewell;
pub use hooks::Hooks;
pub use kind::HookKind;
pub use law::{StampLaw, TieLaw};
pub use tie::TieHook;
pub use views::{ArrivalView, FarewellView, TieView};
