// A replica's state as one text.

mod heads;
mod reading;
mod sameness;
mod writing;

pub use reading::state_in;
pub use sameness::same_state;
pub use writing::put_state;
