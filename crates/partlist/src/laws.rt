// What follows from the definitions of lines of parts.

ghost use Rattle.partlist.specs.Laws.{NoneStops, OnePart, OneStop, TellsBytes};

/// Does nothing. Its contract says that a line describes one part; that a part has one line is the form of
/// the definition itself. And the line of the chaining value of any bytes that can stand from a chunk on
/// describes the part of these bytes.
pub fn part_line_laws()
    ensures one { OnePart }
    ensures bytes { TellsBytes }
{}

/// Does nothing. Its contract says that each text has one outcome after given parts: if all its lines
/// describe parts that follow, no line is wrong; otherwise exactly one line is, in one way.
pub fn join_laws()
    ensures none { NoneStops }
    ensures one { OneStop }
{}
