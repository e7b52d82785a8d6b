//! What `dock --help` prints.

pub(crate) const USAGE: &str = "dock: a hiding store on card files, driven by a script

usage: dock OPTIONS < SCRIPT     carries out the script, a call a line
       dock                      runs the demonstration, two days in memory
       dock --days CARD MAP      books two days on a card that is made anew in the file CARD,
                                 and saves its map in the file MAP
       dock --help               prints this

  --card FILE               the card: 64 bytes a place; read first, written back at the end
  --window START LEN        behind a --card: use LEN of its places, from place START on
  --card FILE ..            a second card: the even places lie on the first, the odd on this one
  --bench                   the bench seal, which hides nothing
  --street FILE             the street seal: 48 bytes, a body key of 32 and a tag key of 16
  --words FILE              the tape: words of four bytes, the lowest byte first
  --keyed FILE COUNT        the tape: COUNT words under 44 bytes, a key of 32 and a nonce of 12

The script. A blank line, and a line that begins with #, is skipped.
  format BLOCKS             makes a store anew: the card's records are lost
  resume FILE               makes a store from a map file
  write BLOCK HEX           takes a value of at most 48 bytes; - is the empty value
  read BLOCK [LENGTH]       reads into a buffer of LENGTH bytes, else 48
  beat [COUNT]              rewrites one record of the card, COUNT times
  face [LENGTH]             the card's clear counters, else as many as there are places
  save [LENGTH] [FILE]      the map file, from a buffer of LENGTH bytes, else 2058

A call that is denied prints why, and the script goes on. A malformed line ends it: the lines
before it stand, on the card too.
";
