//! The constant parts of a picture.

pub(crate) const SVG_BEGIN: &str =
    "<svg xmlns=\"http://www.w3.org/2000/svg\" role=\"img\" aria-label=\"Robots on a map\" viewBox=\"0 0 ";

pub(crate) const SVG_SIZE: &str = "\" width=\"";

/// The colours of the page, light and dark, then the floor with a line round each cell.
pub(crate) const SVG_STYLE: &str =
    "\">\n<style>.floor{fill:#ffffff}.wall{fill:#6b7789}.grid{fill:none;stroke:#e6eaf0}.edge{fill:none;stroke:#6b7789;stroke-width:2}.bar{fill:#2563eb}.goal{fill:none;stroke-width:1.5}.ring{fill:none;stroke:#1b2430;stroke-width:1.5}\
    text{fill:#ffffff;stroke:#000000;stroke-opacity:.6;stroke-width:1.4px;paint-order:stroke;font:600 7px system-ui,sans-serif;text-anchor:middle}\
    @media(prefers-color-scheme:dark){.floor{fill:#1b222c}.wall{fill:#68758a}.grid{stroke:#262f3b}.edge{stroke:#68758a}.bar{fill:#7aa7ff}.ring{stroke:#e7eaf0}}</style>\n\
    <pattern id=\"cell\" width=\"16\" height=\"16\" patternUnits=\"userSpaceOnUse\"><path class=\"grid\" d=\"M16 0v16h-16\"/></pattern>\n\
    <rect class=\"floor\" width=\"100%\" height=\"100%\"/>\n<rect fill=\"url(#cell)\" width=\"100%\" height=\"100%\"/>\n";

pub(crate) const WALLS: &str = "<path class=\"wall\" d=\"";

pub(crate) const WALL: &str = "M";

pub(crate) const WALLS_END: &str = "\"/>\n";

/// The beginning of a robot's goals: a square in its colour on each cell at which it arrives.
pub(crate) const GOALS: &str = "<path class=\"goal\" transform=\"translate(2 2)\" stroke=\"hsl(";

pub(crate) const GOALS_PATH: &str = "e-3 62% 46%)\" d=\"";

pub(crate) const GOAL: &str = "M";

pub(crate) const GOALS_END: &str = "\"/>\n";

/// The beginning of a ring round a robot, which shows when the robot arrives.
pub(crate) const RING: &str =
    "<circle class=\"ring\" cx=\"8\" cy=\"8\" r=\"7.2\" opacity=\"0\"><animate attributeName=\"opacity\" values=\"0";

pub(crate) const RING_END: &str = "00ms\" repeatCount=\"indefinite\"/></circle>";

/// The beginning of a shape that moves.
pub(crate) const TRACK: &str =
    "<g><animateTransform attributeName=\"transform\" type=\"translate\" values=\"";

pub(crate) const TRACK_TIME: &str = "\" dur=\"";

pub(crate) const TRACK_END: &str = "00ms\" repeatCount=\"indefinite\"/>";

/// The beginning of a shape that does not move.
pub(crate) const STILL: &str = "<g transform=\"translate(";

pub(crate) const STILL_END: &str = ")\">";

pub(crate) const DISC: &str = "<circle cx=\"8\" cy=\"8\" r=\"6.4\" fill=\"hsl(";

pub(crate) const NUMBER: &str = "e-3 62% 46%)\"/><text x=\"8\" y=\"10.6\">";

pub(crate) const SHAPE_END: &str = "</text></g>\n";

/// The beginning of the bar at the lower edge, which grows from tick to tick.
pub(crate) const BAR: &str =
    "<rect class=\"bar\" y=\"100%\" width=\"0\" height=\"4\" transform=\"translate(0 -4)\"><animate attributeName=\"width\" values=\"0;100%\" dur=\"";

pub(crate) const BAR_END: &str = "00ms\" repeatCount=\"indefinite\"/></rect>\n";

pub(crate) const SVG_END: &str = "<rect class=\"edge\" width=\"100%\" height=\"100%\"/>\n</svg>\n";
