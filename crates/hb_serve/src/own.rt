// The line that the caller shows itself.
use hb_model::Line;

/// What a line of a script has of its own, shown behind the lines that it adds to the sessions.
#[derive(Drop)]
pub enum Own {
    Nothing,
    Line(Line),
    NotBuilt,
}
