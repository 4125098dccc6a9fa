// Whether bytes are a well-shaped net. Where a thing stands is told by the bytes and a place among them, as in its definition
// (specs/Shape.antt). The sixteen cells of a row are tested to the last (`fold`): with a branch after each (`all`) the test
// of an ordinary net took 12 percent longer.
#![tactic(auto)]

mod channels;
mod routes;
mod station_entries;
pub mod whole;
