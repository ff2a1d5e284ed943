//! What is refused.

use super::run_words;
use std::test::Fail;

#[test]
fn each_refusal_has_its_text(rt: HostRuntime) -> Result<(), Fail> {
    let cases = [
        (
            "solve",
            "siting 1\nkind sum\npoint 0 0 8000000\npoint 1 0 8000001\npermit 0 0 1 0 0 1\nend\n",
            3,
            "bad instance 7 line 4\n",
        ),
        (
            "solve",
            "siting 1\nkind sum\npoint 0 0 1\npermit 4 0 6 8 0 3 8 3 2 8\nend\n",
            3,
            "bad instance 10 line 4\n",
        ),
        ("solve", "", 3, "bad instance 1 line 1\n"),
        (
            "solve",
            "siting 1\nkind sum\npoint 0 0 1\npermit 3 4 9 4 3 10\n",
            3,
            "bad instance 16 line 5\n",
        ),
        (
            "solve",
            "siting 1\nkind sum\npoint 0 0 99999999999999999999999999999999999999999\n\
            permit 3 4 9 4 3 10\nend\n",
            3,
            "bad instance 4 line 3\n",
        ),
        (
            "solve",
            "siting 1\nkind sum\npoint 0 0 -0\npermit 3 4 9 4 3 10\nend\n",
            3,
            "bad instance 5 line 3\n",
        ),
        (
            "solve",
            "siting 1\nkind sum\npoint 0 0 1.5\npermit 3 4 9 4 3 10\nend\n",
            3,
            "bad instance 3 line 3\n",
        ),
        ("solve gap=4611686018427387905", "", 2, "bad words\n"),
        ("solve --gap=1", "", 2, "bad words\n"),
        ("solve gap=1 gap=2", "", 2, "bad words\n"),
        ("solve gap=1 ppm=2", "", 2, "bad words\n"),
        ("solve workers=0", "", 2, "bad words\n"),
        ("make seed=7", "", 2, "bad words\n"),
        ("solve gap=", "", 2, "bad words\n"),
        ("", "", 2, "bad words\n"),
        ("check", "", 5, "rejected 1 line 1\n"),
        ("check gap=1", "", 2, "bad words\n"),
        ("check workers=0", "", 2, "bad words\n"),
        ("check workers=65", "", 2, "bad words\n"),
        ("check workers=2 workers=2", "", 2, "bad words\n"),
        ("check workers=2", "", 5, "rejected 1 line 1\n"),
        ("polish", "", 5, "rejected 1 line 1\n"),
        ("polish x=1", "", 2, "bad words\n"),
        ("near", "", 5, "rejected 1 line 1\n"),
        ("near depth=17", "", 2, "bad words\n"),
        ("near limit=0", "", 2, "bad words\n"),
        ("near limit=1000001", "", 2, "bad words\n"),
        ("near slack=1152921504606846977", "", 2, "bad words\n"),
        ("near depth=1 depth=1", "", 2, "bad words\n"),
        ("trial seed=7", "", 2, "bad words\n"),
        ("trial seed=7 points=4 workers=1", "", 2, "bad words\n"),
    ];
    for (line, input, code, text) in cases {
        let (ended, sink) = run_words(&rt, rt.alloc(), line, input)?;
        assert_eq!(rt; ended, code, "{line}");
        assert_eq!(rt; sink.bytes(), text.as_bytes(), "{line}");
    }
    Ok(())
}
