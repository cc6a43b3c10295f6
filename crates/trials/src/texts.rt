//! Stored plan texts, each with what the reader has to say of it.

/// The parts of a text in order: its first four lines, the next two, the next four, a line that
/// stands `times` times, and the rest. `told` is the number, line, field and place of its refusal,
/// absent where it is a plan.
#[derive(Clone, Copy)]
pub struct TextCase {
    pub rows: &'static str,
    pub gusts: &'static str,
    pub starts: &'static str,
    pub keep: &'static str,
    pub times: usize,
    pub tail: &'static str,
    pub told: Option<[usize; 4]>,
}

/// A plan. Up to its keep-outs it has 156 bytes, and its keep-out has 22.
const PLAN: TextCase = TextCase {
    rows: "row\t1\t4096\t1024\t0\t0\nrow\t2\t0\t2048\t0\t0\nrow\t3\t0\t0\t0\t0\nrow\t4\t0\t0\t0\t0\n",
    gusts: "gust\t1\t0\t4096\t0\t0\t0\t4\ngust\t2\t0\t0\t0\t0\t0\t0\n",
    starts: "start\t1\t100\t8\nstart\t2\t0\t8\nstart\t3\t0\t0\nstart\t4\t0\t0\n",
    keep: "keep\tstop\t1\t0\t0\t0\t112\n",
    times: 1,
    tail: "steps\t1\n",
    told: None,
};

/// Texts that differ from the plan in some part.
pub static CASES: [TextCase; 51] = [
    PLAN,
    TextCase {
        starts: "start\t1\t1073741824\t0\nstart\t2\t-1073741823\t1\nstart\t3\t0\t1073741824\nstart\t4\t0\t0\n",
        ..PLAN
    },
    TextCase {
        keep: "keep\tABCDEFGHIJ12\t-1048576\t1048576\t0\t0\t-4503599627370496\n",
        ..PLAN
    },
    TextCase { times: 16, ..PLAN },
    TextCase { times: 0, ..PLAN },
    TextCase {
        tail: "steps\t256\n",
        ..PLAN
    },
    TextCase {
        tail: "steps\t0\n",
        ..PLAN
    },
    TextCase {
        times: 365,
        tail: "steps\t1",
        told: Some([1, 0, 0, 0]),
        ..PLAN
    },
    TextCase {
        times: 365,
        tail: "steps\t",
        told: Some([10, 27, 1, 0]),
        ..PLAN
    },
    TextCase {
        rows: "",
        gusts: "",
        starts: "",
        times: 0,
        tail: "",
        told: Some([9, 1, 0, 0]),
        ..PLAN
    },
    TextCase {
        rows: "",
        gusts: "",
        starts: "",
        times: 0,
        tail: "row",
        told: Some([9, 1, 0, 0]),
        ..PLAN
    },
    TextCase {
        tail: "steps\t1",
        told: Some([9, 12, 0, 0]),
        ..PLAN
    },
    TextCase {
        gusts: "",
        starts: "",
        times: 0,
        tail: "gust\t1",
        told: Some([9, 5, 0, 0]),
        ..PLAN
    },
    TextCase {
        rows: "rov\t1\t0\t0\t0\t0\n",
        told: Some([2, 1, 1, 0]),
        ..PLAN
    },
    TextCase {
        rows: "\n",
        told: Some([2, 1, 1, 0]),
        ..PLAN
    },
    TextCase {
        gusts: "",
        told: Some([2, 5, 1, 0]),
        ..PLAN
    },
    TextCase {
        starts: "start\t1\t0\t0\nstart\t2\t0\t0\n",
        told: Some([2, 9, 1, 0]),
        ..PLAN
    },
    TextCase {
        tail: "stop\t1\n",
        told: Some([2, 12, 1, 0]),
        ..PLAN
    },
    TextCase {
        times: 17,
        told: Some([10, 27, 1, 0]),
        ..PLAN
    },
    TextCase {
        rows: "row\t1\t0\t0\t0\n",
        told: Some([3, 1, 0, 0]),
        ..PLAN
    },
    TextCase {
        tail: "steps\t1\t\n",
        told: Some([3, 12, 0, 0]),
        ..PLAN
    },
    TextCase {
        keep: "keep\tstop\t1\t0\t0\t112\n",
        told: Some([3, 11, 0, 0]),
        ..PLAN
    },
    TextCase {
        rows: "row\t1\t-0\t0\t0\t0\n",
        told: Some([4, 1, 3, 1]),
        ..PLAN
    },
    TextCase {
        rows: "row\t1\t07\t0\t0\t0\n",
        told: Some([4, 1, 3, 1]),
        ..PLAN
    },
    TextCase {
        rows: "row\t1\t\t0\t0\t0\n",
        told: Some([4, 1, 3, 0]),
        ..PLAN
    },
    TextCase {
        rows: "row\t1\t0\t0\t0\t12345678901234567\n",
        told: Some([4, 1, 6, 16]),
        ..PLAN
    },
    TextCase {
        rows: "row\t1\t0\t0\t0\t-12345678901234567\n",
        told: Some([4, 1, 6, 17]),
        ..PLAN
    },
    TextCase {
        rows: "row\t01\t0\t0\t0\t0\n",
        told: Some([4, 1, 2, 1]),
        ..PLAN
    },
    TextCase {
        gusts: "gust\t1\t0\t0\t0\t0\t0\t+4\n",
        told: Some([4, 5, 8, 0]),
        ..PLAN
    },
    TextCase {
        starts: "start\t1\t0\t0\nstart\t2\t-\t8\n",
        told: Some([4, 8, 3, 1]),
        ..PLAN
    },
    TextCase {
        keep: "keep\tstop\t1\t0\t0\t0\t112 \n",
        told: Some([4, 11, 7, 3]),
        ..PLAN
    },
    TextCase {
        tail: "steps\t0256\n",
        told: Some([4, 12, 2, 1]),
        ..PLAN
    },
    TextCase {
        keep: "keep\tst-op\t1\t0\t0\t0\t112\n",
        told: Some([6, 11, 2, 0]),
        ..PLAN
    },
    TextCase {
        keep: "keep\t\t1\t0\t0\t0\t112\n",
        told: Some([6, 11, 2, 0]),
        ..PLAN
    },
    TextCase {
        keep: "keep\tABCDEFGHIJ123\t1\t0\t0\t0\t112\n",
        told: Some([6, 11, 2, 0]),
        ..PLAN
    },
    TextCase {
        rows: "row\t2\t0\t0\t0\t0\n",
        told: Some([5, 1, 2, 0]),
        ..PLAN
    },
    TextCase {
        rows: "row\t1\t1048577\t0\t0\t0\n",
        told: Some([5, 1, 3, 0]),
        ..PLAN
    },
    TextCase {
        rows: "row\t1\t-1048577\tx\t0\t0\n",
        told: Some([5, 1, 3, 0]),
        ..PLAN
    },
    TextCase {
        rows: "row\t1\t0\t9999999999999999\t0\t0\n",
        told: Some([5, 1, 4, 0]),
        ..PLAN
    },
    TextCase {
        gusts: "gust\t1\t0\t0\t0\t0\t16777217\t0\n",
        told: Some([5, 5, 7, 0]),
        ..PLAN
    },
    TextCase {
        gusts: "gust\t1\t0\t0\t0\t0\t0\t-1\n",
        told: Some([5, 5, 8, 0]),
        ..PLAN
    },
    TextCase {
        starts: "start\t1\t1073741825\t0\n",
        told: Some([5, 7, 3, 0]),
        ..PLAN
    },
    TextCase {
        keep: "keep\tstop\t1\t0\t0\t0\t4503599627370497\n",
        told: Some([5, 11, 7, 0]),
        ..PLAN
    },
    TextCase {
        tail: "steps\t257\n",
        told: Some([5, 12, 2, 0]),
        ..PLAN
    },
    TextCase {
        tail: "steps\t-1\n",
        told: Some([5, 12, 2, 0]),
        ..PLAN
    },
    TextCase {
        gusts: "gust\t1\t0\t0\t0\t0\t16777216\t1\ngust\t2\t0\t0\t0\t0\t0\t-1\n",
        told: Some([7, 5, 8, 0]),
        ..PLAN
    },
    TextCase {
        starts: "start\t1\t1073741824\t1\n",
        told: Some([7, 7, 4, 0]),
        ..PLAN
    },
    TextCase {
        starts: "start\t1\t-1\t1073741824\n",
        told: Some([7, 7, 4, 0]),
        ..PLAN
    },
    TextCase {
        tail: "steps\t1\n\n",
        told: Some([8, 13, 0, 0]),
        ..PLAN
    },
    TextCase {
        tail: "steps\t1\nx",
        told: Some([8, 13, 0, 0]),
        ..PLAN
    },
    TextCase {
        times: 16,
        tail: "steps\t1\nsteps\t1\n",
        told: Some([8, 28, 0, 0]),
        ..PLAN
    },
];
