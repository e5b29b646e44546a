//! The controller of asynchronous execution, after Flink's `AsyncExecutionController` (FLIP-425).
//!
//! A `Controller` takes rows, closes epochs and sends their markers, lets idle keys fire, runs the callbacks of handlers, hands
//! out the requests of the states in batches, and takes their replies. Each of its calls makes events of the machine of
//! `ax_execution`, whatever the states hold.
//!
//! - `settings`: `Settings`, how a controller works.
//! - `effects`: `Fired`, `Ran` and `Effects`, what a callback did.
//! - `controller`: `Controller`, with what can be asked of it.
//! - `admission`, `closing`, `firing`, `callbacks` and `batches`: its calls.
//! - `laws`: what holds of a controller between its calls.
//!
//! Private modules: `record` has what is held of a context, `rooms` what a controller takes when it is made, and `spare` the
//! memory that callbacks use again.
#![tactic(auto)]

mod admission;
mod batches;
mod callbacks;
mod closing;
pub mod controller;
pub mod effects;
mod firing;
pub mod laws;
mod record;
mod rooms;
pub mod settings;
mod spare;

pub use ax_future::Outs;
pub use ax_time::Marker;
pub use controller::Controller;
pub use effects::{Effects, Fired, Ran};
pub use settings::Settings;
