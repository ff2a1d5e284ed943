//! What each fault of a text means, and what it mostly comes from.

/// What a fault of an instance text means.
pub(crate) fn instance_fault(number: u8) -> &'static str {
    match number {
        1 => {
            "BadHeader: the first line isn't `siting 1` or `siting 2`; mostly the input is empty, \
            the line is missing, a byte order mark or UTF-16 stands before it, or the text is an \
            answer, which `check`, `resume`, `polish` and `near` take"
        }
        2 => {
            "BadLine: no line has these fields: `kind sum` or `kind max`, `point X Y WEIGHT`, \
            `permit` or `forbid` and pairs X Y, `end`; mostly a name or a comment stands among \
            the data, commas stand between fields, a coordinate is missing, or a cutoff stands \
            under `siting 1`"
        }
        3 => {
            "BadNumber: a field isn't a whole number; mostly it has a decimal point, a comma or \
            an exponent (round it, or take a smaller unit of length), or is a name or a bracket"
        }
        4 => {
            "OutOfRange: coordinates lie within 1000000 lengths of 0, so subtract an origin; \
            weights lie within 16000000, cutoffs from 1 to 4000000"
        }
        5 => "ZeroWeight: a weight is 0; leave the town out",
        6 => "TooManyPoints: there are more than 4096 towns",
        7 => {
            "WeightSum: the weights, each without its sign, add up to more than 16000000; divide \
            them all by one number"
        }
        8 => "TooFewVertices: a polygon has fewer than 3 vertices; it stands on one line",
        9 => "TooManyVertices: a polygon has more than 64 vertices; cut it, or leave some out",
        10 => {
            "NotConvex: mostly the ring is closed by its first vertex, a vertex stands twice or \
            on a straight edge, or the area isn't convex: cut it (docs/GUIDE.md, \"Areas that \
            aren't convex\")"
        }
        11 => {
            "TooManyPolygons: there are more than 64 of this word; leave out those that forbid \
            nothing that is permitted, or cut the region into strips, each with those that reach \
            it"
        }
        12 => "NoKind: there is no line `kind sum` or `kind max`",
        13 => "TwoKinds: there is a `kind` line already",
        14 => "NoPoint: there is no town",
        15 => "NoPermit: there is no permitted polygon",
        16 => "NoEnd: the last line, `end`, is missing; mostly the text was cut",
        _ => "AfterEnd: only comments and blank lines may follow `end`",
    }
}

/// What a fault of an answer means.
pub(crate) fn answer_fault(number: u8) -> &'static str {
    match number {
        1 => {
            "Form: the line isn't of its form, or is missing; mostly the text is an instance, \
            which `solve` takes, or was cut, or came with changed line ends or a byte order mark: \
            an answer has to come as it was written"
        }
        2 => "Instance: the instance in the answer isn't as the program writes it",
        3 => "SiteOutside: the site isn't permitted",
        4 => "CostDiffers: the cost isn't that of the site",
        5 => "TreeShort: squares are missing",
        6 => "TreeLong: there are squares too many",
        7 => "NotShut: a square that may hold a permitted point is said to hold none",
        8 => "BoundDiffers: a bound isn't that of its square",
        9 => "WrongMark: a square has the wrong letter",
        10 => "SplitUncalled: a square was split that didn't call for it",
        11 => "LeastDiffers: the bound isn't the least of those of the squares",
        12 => "WrongWord: the squares call for another word",
        13 => "WrongCount: `open` or `leases` doesn't fit the squares",
        _ => "SiteWorse: a vertex of a polygon is permitted and costs less than the site",
    }
}
