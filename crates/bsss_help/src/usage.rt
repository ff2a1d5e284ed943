//! The commands with their words.

/// The commands, each with its words, their ranges and what holds where they don't stand.
pub(crate) const USAGE: &str = "\
usage: bsss COMMAND [NAME=NUMBER].. < INPUT > OUTPUT

solve   reads an instance, and writes an answer
          gap=NUMBER      0 to 2^62, in cost units: how far the cost may lie above the bound
          ppm=NUMBER      0 to 1000000, else 1000: the gap in millionths of the best vertex's cost
          budget=NUMBER   0 to 1000000, else 100000: how many squares may be taken up
          pool=NUMBER     1 to 1000000, else 100000: how many squares may be open at once
          workers=NUMBER  1 to 64, else 1
check   reads an answer, and says whether it is valid
          workers=NUMBER  1 to 64, else 1
resume  reads an answer, and goes on from it
          budget=NUMBER   0 to 1000000, must be given: for all squares from the beginning
          pool=NUMBER     1 to 1000000, else that of the answer
          workers=NUMBER  1 to 64, else 1
polish  reads an answer, and writes its bound and a better one
near    reads an answer, and writes the squares in which a point may cost little more than its site
          slack=NUMBER    0 to 2^60, else 0: how much more, in cost units
          depth=NUMBER    0 to 16, else 8: how often the starting square is halved
          limit=NUMBER    1 to 1000000, else 100000: how many squares may be written
make    writes a made instance
          seed=NUMBER     0 to 2147483647, must be given
          points=NUMBER   1 to 4096, must be given
trial   makes an instance, solves it, checks the answer, and writes a summary
          seed, points, gap, ppm, budget, pool as above

Input is read from standard input. A cost unit is 1/65536 of weight times length, a grid unit 1/65536 of a length.
README.md and docs/GUIDE.md have examples, docs/FORMATS.md the texts.
";
