//! What is told of times that are not settled, of a drive with its table, and as JSON.
use crate::asked::go_over;
use crate::given::{Asked, TAKEN};
use made::WrongRows;
use std::alloc::Global;

// What is told of times that are not settled: above all of the log, or as late as a promise or a decision without an outcome.
static UNSETTLED: [Asked; 3] = [
    Asked {
        lines: &["get one a 112", "get one \\x61 4611686018427387903"],
        printed: "=1 not settled yet\n",
        ..TAKEN
    },
    Asked {
        lines: &[
            "get one b 112",
            "get two a 400",
            "get two a 1000",
            "get bare a 1",
            "get renewed a 400",
        ],
        printed: "none not settled yet\n",
        ..TAKEN
    },
    Asked {
        lines: &["get two z 500", "get two z 510", "get two z 1000"],
        printed: "=2 not settled yet\n",
        ..TAKEN
    },
];

// A drive whose table is told too.
static WITH_A_TABLE: [Asked; 1] = [Asked {
    lines: &["drive --table good.settings", "drive good.settings --table"],
    printed: "stride 1000\nepsilon 100\nworkers 4\nlooks 10\nverdict yes\ntable\n",
    ..TAKEN
}];

// What is told as JSON.
static AS_JSON: [Asked; 9] = [
    Asked {
        lines: &["get --json one a", "get one a --json"],
        printed: "{\"value\":\"1\",\"settled\":true}\n",
        ..TAKEN
    },
    Asked {
        lines: &["get --json two z 1000"],
        printed: "{\"at\":1000,\"date\":\"1970-01-01T00:00:00.001Z\",\"value\":\"2\",\"settled\":false}\n",
        ..TAKEN
    },
    Asked {
        lines: &["get --json one b 4611686018427387903"],
        printed: "{\"at\":4611686018427387903,\"date\":null,\"value\":null,\"settled\":false}\n",
        ..TAKEN
    },
    Asked {
        lines: &["history --json two a"],
        printed: "{\"at\":200,\"date\":\"1970-01-01T00:00:00.0002Z\",\"txn\":\"1.2\",\"value\":\"1\",\"standing\":\"version\"}\n\
            {\"at\":300,\"date\":\"1970-01-01T00:00:00.0003Z\",\"txn\":\"1.3\",\"value\":null,\"standing\":\"version\"}\n\
            {\"at\":400,\"date\":\"1970-01-01T00:00:00.0004Z\",\"txn\":\"1.4\",\"value\":\"\\\\x0a\\\\x5c\",\"standing\":\"decided\"}\n",
        ..TAKEN
    },
    Asked {
        lines: &["history --json renewed z"],
        printed: "{\"at\":200,\"date\":\"1970-01-01T00:00:00.0002Z\",\"txn\":null,\"value\":\"2\",\"standing\":\"version\"}\n\
            {\"at\":500,\"date\":\"1970-01-01T00:00:00.0005Z\",\"txn\":\"1.5\",\"value\":\"3\",\"standing\":\"in doubt\"}\n",
        ..TAKEN
    },
    Asked {
        lines: &["dump --json many.log"],
        printed: "{\"offset\":9224,\"record\":\"opened\",\"epoch\":1}\n\
            {\"offset\":9238,\"record\":\"commit\",\"txn\":\"1.2\",\"at\":200,\"date\":\"1970-01-01T00:00:00.0002Z\",\
            \"parts\":[0],\"reads\":[],\"writes\":[{\"key\":\"a\",\"value\":\"1\"}]}\n\
            {\"offset\":9280,\"record\":\"abort\",\"txn\":\"1.3\"}\n\
            {\"offset\":9302,\"record\":\"ceiling\",\"at\":300,\"date\":\"1970-01-01T00:00:00.0003Z\"}\n\
            {\"offset\":9316,\"record\":\"opened\",\"epoch\":2}\n\
            {\"closed at\":9330}\n",
        ..TAKEN
    },
    Asked {
        lines: &["dump --json renewed/shard-1.log"],
        printed: "{\"offset\":9224,\"record\":\"base\",\"epoch\":1,\"floor\":200,\"floor date\":\"1970-01-01T00:00:00.0002Z\",\
            \"horizon\":0,\"horizon date\":\"1970-01-01T00:00:00Z\"}\n\
            {\"offset\":9254,\"record\":\"version\",\"at\":200,\"date\":\"1970-01-01T00:00:00.0002Z\",\"key\":\"z\",\"value\":\"2\"}\n\
            {\"offset\":9274,\"record\":\"closed\",\"txn\":\"1.2\",\"coordinator\":0,\"outcome\":\"committed\",\"at\":200,\
            \"date\":\"1970-01-01T00:00:00.0002Z\"}\n\
            {\"offset\":9306,\"record\":\"closed\",\"txn\":\"1.6\",\"coordinator\":0,\"outcome\":\"aborted\"}\n\
            {\"offset\":9330,\"record\":\"prepare\",\"txn\":\"1.5\",\"coordinator\":0,\"at\":500,\"date\":\"1970-01-01T00:00:00.0005Z\",\
            \"reads\":[],\"writes\":[{\"key\":\"z\",\"value\":\"3\"}]}\n\
            {\"offset\":9371,\"record\":\"opened\",\"epoch\":2}\n\
            {\"closed at\":9385}\n",
        ..TAKEN
    },
    Asked {
        lines: &["stats --json promised.log"],
        printed: "{\"logs\":[{\"log\":\"promised.log\",\"bytes\":9274,\"dead bytes\":0,\"turnovers\":0,\"turnovers left\":1024,\"records\":2,\
            \"opened\":1,\"ceiling\":0,\"prepare\":1,\"commit\":0,\"abort\":0,\"outcome\":0,\"horizon\":0,\"base\":0,\"version\":0,\
            \"settled\":0,\"closed\":0,\"retired\":0,\"keys\":0,\"versions\":0,\"epoch\":1,\"floor\":200,\"in doubt\":1,\
            \"doubts\":[{\"at\":200,\"date\":\"1970-01-01T00:00:00.0002Z\",\"txn\":\"1.2\",\"standing\":\"promised\"}]}]}\n",
        ..TAKEN
    },
    Asked {
        lines: &["stats --json bare.log bare.log"],
        printed: "{\"logs\":[{\"log\":\"bare.log\",\"bytes\":9225,\"dead bytes\":0,\"turnovers\":0,\"turnovers left\":1024,\"records\":0,\
            \"opened\":0,\"ceiling\":0,\"prepare\":0,\"commit\":0,\"abort\":0,\"outcome\":0,\"horizon\":0,\"base\":0,\"version\":0,\
            \"settled\":0,\"closed\":0,\"retired\":0,\"keys\":0,\"versions\":0,\"epoch\":0,\"floor\":0,\"in doubt\":0,\"doubts\":[]},\
            {\"log\":\"bare.log\",\"bytes\":9225,\"dead bytes\":0,\"turnovers\":0,\"turnovers left\":1024,\"records\":0,\
            \"opened\":0,\"ceiling\":0,\"prepare\":0,\"commit\":0,\"abort\":0,\"outcome\":0,\"horizon\":0,\"base\":0,\"version\":0,\
            \"settled\":0,\"closed\":0,\"retired\":0,\"keys\":0,\"versions\":0,\"epoch\":0,\"floor\":0,\"in doubt\":0,\"doubts\":[]}],\
            \"sums\":{\"bytes\":18450,\"dead bytes\":0,\"turnovers\":0,\"records\":0,\
            \"opened\":0,\"ceiling\":0,\"prepare\":0,\"commit\":0,\"abort\":0,\"outcome\":0,\"horizon\":0,\"base\":0,\"version\":0,\
            \"settled\":0,\"closed\":0,\"retired\":0,\"keys\":0,\"versions\":0,\"in doubt\":0,\"logs\":2}}\n",
        ..TAKEN
    },
];

// A body that names a table costs much to prove, so each is handed on.
fn unsettled() -> &'static [Asked] {
    &UNSETTLED
}

fn with_a_table() -> &'static [Asked] {
    &WITH_A_TABLE
}

fn as_json() -> &'static [Asked] {
    &AS_JSON
}

/// Goes over these.
pub fn go_over_told(wrong: &mut WrongRows, alloc: Global) {
    for rows in [unsettled(), with_a_table(), as_json()] {
        go_over(wrong, alloc, rows);
    }
}
