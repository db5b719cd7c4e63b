//! Commands that ask the system for files, and some that do not; in rows of lines that come to the same.
use crate::files::all_files;
use crate::given::{AMPLE, Asked, Memory, REFUSED, TAKEN, Writes, comes_to};
use commands::stats_files;
use made::WrongRows;
use std::alloc::Global;

// What commits, new logs, verdicts and drives print, also beside a fault.
static JUDGED: [Asked; 11] = [
    Asked {
        lines: &[
            "once a 1 100 110 112 121",
            // Words after `--` ask for no help.
            "once -- -h --help 100 110 112 121",
        ],
        printed: "commit 1.1 at 111\ndone 1.1 committed 111\n",
        ..TAKEN
    },
    Asked {
        lines: &["once a 1 100 110 111 120"],
        printed: "commit 1.1 at 111\nearly\n",
        status: 1,
        ..TAKEN
    },
    Asked {
        lines: &[
            "format new.log",
            "migrate old_version.log new.log",
            "compact done.log new.log",
            "compact bare.log new.log",
            "history one b",
            "history two y",
            "history bare a",
            "history renewed b",
        ],
        ..TAKEN
    },
    Asked {
        lines: &[
            "inspect empty opened.log",
            "inspect empty opened.log promised.log",
            "inspect empty done.log",
            "inspect empty forgotten.log",
            "inspect right.lines done.log",
            "inspect empty opened.log opened.log opened.log opened.log opened.log opened.log opened.log opened.log \
                opened.log opened.log opened.log opened.log opened.log opened.log opened.log opened.log",
            "inspect renewed/right.lines renewed/shard-0.log renewed/shard-1.log",
        ],
        printed: "yes\n",
        ..TAKEN
    },
    Asked {
        lines: &["inspect empty torn.log opened.log"],
        printed: "no torn 1.2\n",
        status: 1,
        ..TAKEN
    },
    Asked {
        lines: &["inspect lost.lines opened.log"],
        printed: "no lost 1.3\n",
        status: 1,
        ..TAKEN
    },
    Asked {
        lines: &["inspect read.lines done.log"],
        printed: "no read 1\n",
        status: 1,
        ..TAKEN
    },
    Asked {
        lines: &["inspect order.lines done.log"],
        printed: "no order 1 0\n",
        status: 1,
        ..TAKEN
    },
    Asked {
        lines: &["drive good.settings"],
        printed: "stride 1000\nepsilon 100\nworkers 4\nlooks 10\nverdict yes\n",
        ..TAKEN
    },
    Asked {
        lines: &["drive torn.settings"],
        printed: "stride 0\nepsilon 0\nworkers 1\nlooks 1\nverdict no torn 1.2\n",
        status: 1,
        ..TAKEN
    },
    Asked {
        lines: &["drive stopped.settings"],
        printed: "looks 2\n",
        refused: "fault: 2 Device\n",
        ..REFUSED
    },
];

// What dumps print.
static DUMPED: [Asked; 7] = [
    Asked {
        lines: &["dump odd.log"],
        printed: "9224 opened 1\n9238 commit 1.2 200 0 - b\\x0a9=x\\x3d\\x2c\\x1b\nclosed at 9285\n",
        ..TAKEN
    },
    Asked {
        lines: &["dump done.log"],
        printed: "9224 opened 1\n9238 commit 1.2 200 0 - a=1\n9280 outcome 1.2 committed 200\nclosed at 9311\n",
        ..TAKEN
    },
    Asked {
        lines: &["dump many.log"],
        printed: "9224 opened 1\n9238 commit 1.2 200 0 - a=1\n9280 abort 1.3\n9302 ceiling 300\n9316 opened 2\nclosed at 9330\n",
        ..TAKEN
    },
    Asked {
        lines: &["dump forgotten.log"],
        printed: "9224 opened 1\n9238 ceiling 300\n9252 horizon 200\nclosed at 9266\n",
        ..TAKEN
    },
    Asked {
        lines: &["dump promised.log"],
        printed: "9224 opened 1\n9238 prepare 1.2 0 200 - -\nclosed at 9273\n",
        ..TAKEN
    },
    Asked {
        lines: &["dump bare.log"],
        printed: "closed at 9224\n",
        ..TAKEN
    },
    Asked {
        lines: &["dump unfinished.log", "dump filled.log"],
        printed: "9224 opened 1\ntorn at 9238\n",
        ..TAKEN
    },
];

// What the numbers of logs print.
static COUNTED: [Asked; 9] = [
    Asked {
        lines: &["stats done.log"],
        printed: "log done.log\nbytes 9312\ndead bytes 0\nturnovers 0\nturnovers left 1024\nrecords 3\nopened 1\nceiling 0\nprepare 0\ncommit 1\nabort 0\noutcome 1\n\
            horizon 0\nbase 0\nversion 0\nsettled 0\nclosed 0\nretired 0\n\
            keys 1\nversions 1\nepoch 1\nfloor 200\nin doubt 0\n",
        ..TAKEN
    },
    Asked {
        lines: &["stats promised.log done.log"],
        printed: "log promised.log\nbytes 9274\ndead bytes 0\nturnovers 0\nturnovers left 1024\nrecords 2\nopened 1\nceiling 0\nprepare 1\ncommit 0\nabort 0\noutcome 0\n\
            horizon 0\nbase 0\nversion 0\nsettled 0\nclosed 0\nretired 0\n\
            keys 0\nversions 0\nepoch 1\nfloor 200\nin doubt 1\npromised 1.2 200\n\
            log done.log\nbytes 9312\ndead bytes 0\nturnovers 0\nturnovers left 1024\nrecords 3\nopened 1\nceiling 0\nprepare 0\ncommit 1\nabort 0\noutcome 1\n\
            horizon 0\nbase 0\nversion 0\nsettled 0\nclosed 0\nretired 0\n\
            keys 1\nversions 1\nepoch 1\nfloor 200\nin doubt 0\n\
            all 2\nbytes 18586\ndead bytes 0\nturnovers 0\nrecords 5\nopened 2\nceiling 0\nprepare 1\ncommit 1\nabort 0\noutcome 1\n\
            horizon 0\nbase 0\nversion 0\nsettled 0\nclosed 0\nretired 0\n\
            keys 1\nversions 1\nin doubt 1\n",
        ..TAKEN
    },
    Asked {
        lines: &["stats forgotten.log"],
        printed: "log forgotten.log\nbytes 9267\ndead bytes 0\nturnovers 0\nturnovers left 1024\nrecords 3\nopened 1\nceiling 1\nprepare 0\ncommit 0\nabort 0\noutcome 0\n\
            horizon 1\nbase 0\nversion 0\nsettled 0\nclosed 0\nretired 0\n\
            keys 0\nversions 0\nepoch 1\nfloor 300\nin doubt 0\n",
        ..TAKEN
    },
    Asked {
        lines: &["stats one/shard-0.log", "stats one"],
        printed: "log one/shard-0.log\nbytes 9312\ndead bytes 0\nturnovers 0\nturnovers left 1024\nrecords 3\nopened 1\nceiling 0\nprepare 0\ncommit 1\nabort 0\noutcome 1\n\
            horizon 0\nbase 0\nversion 0\nsettled 0\nclosed 0\nretired 0\n\
            keys 1\nversions 1\nepoch 1\nfloor 111\nin doubt 0\n",
        ..TAKEN
    },
    Asked {
        lines: &["stats two/shard-0.log two/shard-1.log", "stats two"],
        printed: "log two/shard-0.log\nbytes 9425\ndead bytes 0\nturnovers 0\nturnovers left 1024\nrecords 6\nopened 1\nceiling 0\nprepare 0\ncommit 3\nabort 0\noutcome 2\n\
            horizon 0\nbase 0\nversion 0\nsettled 0\nclosed 0\nretired 0\n\
            keys 1\nversions 2\nepoch 1\nfloor 400\nin doubt 1\ndecided 1.4 400\n\
            log two/shard-1.log\nbytes 9416\ndead bytes 0\nturnovers 0\nturnovers left 1024\nrecords 6\nopened 1\nceiling 0\nprepare 3\ncommit 0\nabort 0\noutcome 2\n\
            horizon 0\nbase 0\nversion 0\nsettled 0\nclosed 0\nretired 0\n\
            keys 1\nversions 1\nepoch 1\nfloor 510\nin doubt 1\npromised 1.5 500\n\
            all 2\nbytes 18841\ndead bytes 0\nturnovers 0\nrecords 12\nopened 2\nceiling 0\nprepare 3\ncommit 3\nabort 0\noutcome 4\n\
            horizon 0\nbase 0\nversion 0\nsettled 0\nclosed 0\nretired 0\n\
            keys 2\nversions 3\nin doubt 2\n",
        ..TAKEN
    },
    Asked {
        lines: &["stats kinds.log"],
        printed: "log kinds.log\nbytes 9334\ndead bytes 0\nturnovers 0\nturnovers left 1024\nrecords 5\nopened 2\nceiling 1\nprepare 0\ncommit 1\nabort 1\noutcome 0\n\
            horizon 0\nbase 0\nversion 0\nsettled 0\nclosed 0\nretired 0\n\
            keys 0\nversions 0\nepoch 2\nfloor 300\nin doubt 1\ndecided 1.2 200\n",
        ..TAKEN
    },
    Asked {
        lines: &["stats keys.log"],
        printed: "log keys.log\nbytes 9315\ndead bytes 0\nturnovers 0\nturnovers left 1024\nrecords 3\nopened 1\nceiling 0\nprepare 0\ncommit 1\nabort 0\noutcome 1\n\
            horizon 0\nbase 0\nversion 0\nsettled 0\nclosed 0\nretired 0\n\
            keys 2\nversions 2\nepoch 1\nfloor 100\nin doubt 0\n",
        ..TAKEN
    },
    Asked {
        lines: &["stats passed.log"],
        printed: "log passed.log\nbytes 9354\ndead bytes 0\nturnovers 0\nturnovers left 1024\nrecords 6\nopened 1\nceiling 1\nprepare 0\ncommit 1\nabort 0\noutcome 1\n\
            horizon 2\nbase 0\nversion 0\nsettled 0\nclosed 0\nretired 0\n\
            keys 1\nversions 1\nepoch 1\nfloor 300\nin doubt 0\n",
        ..TAKEN
    },
    Asked {
        lines: &["stats bare.log"],
        printed: "log bare.log\nbytes 9225\ndead bytes 0\nturnovers 0\nturnovers left 1024\nrecords 0\nopened 0\nceiling 0\nprepare 0\ncommit 0\nabort 0\noutcome 0\n\
            horizon 0\nbase 0\nversion 0\nsettled 0\nclosed 0\nretired 0\n\
            keys 0\nversions 0\nepoch 0\nfloor 0\nin doubt 0\n",
        ..TAKEN
    },
];

// What is told of keys, and of writes to them.
static TOLD: [Asked; 12] = [
    Asked {
        lines: &[
            "get --raw one a",
            "get one --raw a 111",
            "get two a 299 --raw",
        ],
        printed: "1",
        ..TAKEN
    },
    Asked {
        lines: &[
            "get --raw one b",
            "get --raw one a 110",
            "get --raw two a 300",
        ],
        status: 1,
        ..TAKEN
    },
    Asked {
        lines: &[
            "put one a stands",
            "put one a \\x73t\\x61nds",
            "put one \\x61 stan\\x64s",
            "put --bytes one a \\x73t\\x61nds",
            "put --raw one a stands",
            "put --raw one \\x61 stands",
            "put one a -",
            "put --bytes one a -",
            "put -- one a -",
        ],
        printed: "committed 112\n",
        ..TAKEN
    },
    Asked {
        lines: &["history one a"],
        printed: "111 1.1 =1\n",
        ..TAKEN
    },
    Asked {
        lines: &["history two a"],
        printed: "200 1.2 =1\n300 1.3 none\n400 1.4 =\\x0a\\x5c decided\n",
        ..TAKEN
    },
    Asked {
        lines: &["history two z"],
        printed: "200 1.2 =2\n500 1.5 =3 in doubt\n",
        ..TAKEN
    },
    Asked {
        lines: &[
            "get one a",
            "get one a 111",
            "get two a 299",
            "get renewed a 199",
        ],
        printed: "=1\n",
        ..TAKEN
    },
    Asked {
        lines: &[
            "get one a 110",
            "get one b",
            "get two a",
            "get two a 199",
            "get two a 300",
            "get two a 399",
            "get two z 199",
            "get two y",
            "get bare a",
            "get bare a 0",
            "get bytes a",
            "get renewed a",
            "get renewed a 110",
        ],
        printed: "none\n",
        ..TAKEN
    },
    Asked {
        lines: &["get two z 499", "get renewed z"],
        printed: "=2\n",
        ..TAKEN
    },
    Asked {
        lines: &["put one a stands", "put two z stands", "put bytes a stands"],
        printed: "committed 112\n",
        ..TAKEN
    },
    Asked {
        lines: &["put one a dropped"],
        printed: "aborted\n",
        status: 1,
        ..TAKEN
    },
    Asked {
        lines: &["put one a silent"],
        printed: "unknown 1.2\n",
        status: 1,
        ..TAKEN
    },
];

// What is told of renewed logs.
static RETIRED: [Asked; 5] = [
    Asked {
        lines: &["history gone a"],
        printed: "111 1.1 =1\n",
        ..TAKEN
    },
    Asked {
        lines: &["get gone a", "get gone a 111"],
        printed: "=1\n",
        ..TAKEN
    },
    Asked {
        lines: &["dump gone/shard-0.log"],
        printed: "9224 opened 1\n9238 commit 1.1 111 0 - a=1\n9280 outcome 1.1 committed 111\n9311 retired 1.2\nclosed at 9333\n",
        ..TAKEN
    },
    Asked {
        lines: &["dump --json gone/shard-0.log"],
        printed: "{\"offset\":9224,\"record\":\"opened\",\"epoch\":1}\n\
            {\"offset\":9238,\"record\":\"commit\",\"txn\":\"1.1\",\"at\":111,\"date\":\"1970-01-01T00:00:00.000111Z\",\"parts\":[0],\
            \"reads\":[],\"writes\":[{\"key\":\"a\",\"value\":\"1\"}]}\n\
            {\"offset\":9280,\"record\":\"outcome\",\"txn\":\"1.1\",\"outcome\":\"committed\",\"at\":111,\"date\":\"1970-01-01T00:00:00.000111Z\"}\n\
            {\"offset\":9311,\"record\":\"retired\",\"below\":\"1.2\"}\n{\"closed at\":9333}\n",
        ..TAKEN
    },
    Asked {
        lines: &["stats gone"],
        printed: "log gone/shard-0.log\nbytes 9334\ndead bytes 0\nturnovers 0\nturnovers left 1024\nrecords 4\nopened 1\nceiling 0\nprepare 0\ncommit 1\nabort 0\noutcome 1\n\
            horizon 0\nbase 0\nversion 0\nsettled 0\nclosed 0\nretired 1\n\
            keys 1\nversions 1\nepoch 1\nfloor 111\nin doubt 0\n",
        ..TAKEN
    },
];

// What is told of renewed logs.
static RENEWED: [Asked; 8] = [
    Asked {
        lines: &["history renewed a"],
        printed: "111 - =1\n200 - none\n400 1.4 =7 decided\n",
        ..TAKEN
    },
    Asked {
        lines: &["history renewed z"],
        printed: "200 - =2\n500 1.5 =3 in doubt\n",
        ..TAKEN
    },
    Asked {
        lines: &["dump renewed/shard-0.log"],
        printed: "9224 base 1 200 0\n9254 version 111 a=1\n9274 version 200 a!\n9291 settled 1.1 111 0\n9323 settled 1.2 200 0,1\n\
            9355 opened 2\n9369 commit 1.4 400 0 - a=7\nclosed at 9411\n",
        ..TAKEN
    },
    Asked {
        lines: &["dump renewed/shard-1.log"],
        printed: "9224 base 1 200 0\n9254 version 200 z=2\n9274 closed 1.2 0 committed 200\n9306 closed 1.6 0 aborted\n\
            9330 prepare 1.5 0 500 - z=3\n9371 opened 2\nclosed at 9385\n",
        ..TAKEN
    },
    Asked {
        lines: &["dump misplaced.log"],
        printed: "9224 opened 1\n9238 base 1 0 0\nclosed at 9268\n",
        ..TAKEN
    },
    Asked {
        lines: &["stats renewed/shard-0.log"],
        printed: "log renewed/shard-0.log\nbytes 9412\ndead bytes 0\nturnovers 0\nturnovers left 1024\nrecords 7\nopened 1\nceiling 0\nprepare 0\ncommit 1\nabort 0\noutcome 0\n\
            horizon 0\nbase 1\nversion 2\nsettled 2\nclosed 0\nretired 0\n\
            keys 1\nversions 2\nepoch 2\nfloor 400\nin doubt 1\ndecided 1.4 400\n",
        ..TAKEN
    },
    Asked {
        lines: &["stats renewed/shard-1.log"],
        printed: "log renewed/shard-1.log\nbytes 9386\ndead bytes 0\nturnovers 0\nturnovers left 1024\nrecords 6\nopened 1\nceiling 0\nprepare 1\ncommit 0\nabort 0\noutcome 0\n\
            horizon 0\nbase 1\nversion 1\nsettled 0\nclosed 2\nretired 0\n\
            keys 1\nversions 1\nepoch 2\nfloor 500\nin doubt 1\npromised 1.5 500\n",
        ..TAKEN
    },
    Asked {
        lines: &["inspect renewed/lost.lines renewed/shard-0.log renewed/shard-1.log"],
        printed: "no lost 1.4\n",
        status: 1,
        ..TAKEN
    },
];

// Words that are refused: nothing but a fault is told.
static REFUSED_WORDS: [Asked; 4] = [
    Asked {
        lines: &[
            "once a 1 110 100 112 121",
            "once a 1 100 4611686018427387904 112 0x",
            "once a 1 100 99999999999999999999 112 121",
            "get one a 4611686018427387904",
        ],
        refused: "fault: 7 BadRequest(stamp)\n",
        ..REFUSED
    },
    Asked {
        lines: &[
            "once a 1 0x 110 112 121",
            "once a 1 0100 110 121 112",
            "format",
            "format a b",
            "inspect empty opened.log opened.log opened.log opened.log opened.log opened.log opened.log opened.log \
                opened.log opened.log opened.log opened.log opened.log opened.log opened.log opened.log opened.log",
            "inspect empty",
            "inspect",
            "drive",
            "migrate",
            "migrate old_version.log",
            "migrate old_version.log new.log more",
            "compact",
            "compact done.log",
            "compact done.log new.log more",
            "dump",
            "dump opened.log done.log",
            "stats",
            "stats done.log done.log done.log done.log done.log done.log done.log done.log done.log done.log done.log \
                done.log done.log done.log done.log done.log done.log",
            "history one",
            "history one a 5",
            "get one",
            "get one a 5 6",
            "get one a x",
            "put one a",
            "put one a stands 5",
            "put --bytes one a \\x7",
            "put --bytes one a stands\\x",
            "put --bytes one a \\xg0",
            "put one a \\stands",
            "put one a\\ stands",
            "put --raw one \\ stands",
            "get one \\x6",
            "history one \\x6g",
            "put --raw --bytes one a stands",
            "get --raw --json one a",
        ],
        refused: "fault: 7 BadRequest(command)\n",
        ..REFUSED
    },
    Asked {
        lines: &["once a 1 100 4611686018427387903 112 121"],
        refused: "fault: 4 TimeSpent\n",
        ..REFUSED
    },
    Asked {
        lines: &[
            "once  1 0100 110 112 121",
            "get one ",
            "history one ",
            "put one  stands",
        ],
        refused: "fault: 7 BadRequest(key)\n",
        ..REFUSED
    },
];

// Files that are refused: nothing but a fault is told.
static REFUSED_FILES: [Asked; 10] = [
    Asked {
        lines: &[
            "format opened.log",
            "play missing",
            "inspect missing opened.log",
            "inspect empty opened.log missing",
            "drive missing",
            "migrate old_version.log opened.log",
            "migrate old_version.log old_version.log",
            "migrate missing new.log",
            "migrate missing opened.log",
            "compact done.log opened.log",
            "compact done.log done.log",
            "compact missing new.log",
            "dump missing",
            "stats done.log missing",
            "stats one/shard-0.log missing",
            "get missing a",
            "get none a",
            "history missing a",
            "put missing a stands",
        ],
        refused: "fault: 2 Device\n",
        ..REFUSED
    },
    Asked {
        lines: &["inspect no_text opened.log"],
        refused: "fault: 7 BadRequest(syntax 1)\n",
        ..REFUSED
    },
    Asked {
        lines: &[
            "inspect wrong.lines opened.log",
            "inspect wrong.lines missing",
        ],
        refused: "fault: 7 BadRequest(syntax 2)\n",
        ..REFUSED
    },
    Asked {
        lines: &[
            "inspect empty promised.log",
            "inspect empty opened.log done.log",
            "stats unpromised/shard-0.log",
            "stats early.log",
            "get unpromised a",
            "history unpromised a",
            "stats misplaced.log",
            "inspect renewed/right.lines misplaced.log",
        ],
        refused: "fault: 11 Damaged at 9238\n",
        ..REFUSED
    },
    Asked {
        lines: &[
            "inspect empty unopened.log",
            "inspect empty cut.log",
            "inspect empty cut.log empty",
            "inspect empty opened.log opened.log cut.log",
            "compact cut.log new.log",
            "compact cut.log opened.log",
            "dump cut.log",
            "stats cut.log",
            "get cut a",
        ],
        refused: "fault: 11 Damaged at 9224\n",
        ..REFUSED
    },
    Asked {
        lines: &[
            "inspect empty old_version.log",
            "inspect empty empty",
            "migrate opened.log new.log",
            "migrate empty new.log",
            "compact old_version.log new.log",
            "compact empty new.log",
            "dump old_version.log",
            "dump empty",
            "stats done.log old_version.log",
            "stats old_version.log",
        ],
        refused: "fault: 12 NotALog\n",
        ..REFUSED
    },
    Asked {
        lines: &[
            "drive empty",
            "drive no_text",
            "drive unknown.settings",
            "get unnamed a",
            "get later a",
            "get unordered a",
            "history unnamed a",
            "put unnamed a stands",
            "put later a stands",
            "put unordered a stands",
        ],
        refused: "fault: 7 BadRequest(settings)\n",
        ..REFUSED
    },
    Asked {
        lines: &[
            "migrate old_cut.log new.log",
            "migrate old_cut.log opened.log",
        ],
        refused: "fault: 11 Damaged at 8\n",
        ..REFUSED
    },
    Asked {
        lines: &["stats mixed.log"],
        refused: "fault: 11 Damaged at 9274\n",
        ..REFUSED
    },
    Asked {
        lines: &["get swapped a", "history swapped a", "put one a refused"],
        refused: "fault: 14 Stranger\n",
        ..REFUSED
    },
];

// Only how the text begins is told.
const BEGUN: Writes = Writes {
    whole: false,
    ..AMPLE
};

// Help and the version are printed before anything else is looked at.
static HELP: [Asked; 8] = [
    Asked {
        lines: &[
            "--help",
            "-h",
            "help",
            "-x --help",
            "help help",
            "help gett",
            "gett --help",
        ],
        printed: "usage: shards COMMAND WORD..\n",
        writes: BEGUN,
        ..TAKEN
    },
    Asked {
        lines: &[
            "once --help",
            "once a -h -- 1",
            "help once",
            "--help once",
            "-h once",
        ],
        printed: "once KEY VALUE E1 L1 E2 L2\n",
        writes: BEGUN,
        ..TAKEN
    },
    Asked {
        lines: &["get --help", "help get", "get one -h"],
        printed: "get [--raw] [--json] DIR KEY [AT]\n",
        writes: BEGUN,
        ..TAKEN
    },
    Asked {
        lines: &["put --help", "help put more"],
        printed: "put [--raw] [--bytes] DIR KEY VALUE\n",
        writes: BEGUN,
        ..TAKEN
    },
    Asked {
        lines: &["stats --help"],
        printed: "stats [--json] LOG..\n",
        writes: BEGUN,
        ..TAKEN
    },
    Asked {
        lines: &["help migrate"],
        printed: "migrate OLD NEW\n    Makes NEW, which must not exist, as a log file of version 2 with the records\n    of OLD, a log file of version 1, which stays as it is. Prints nothing.\n",
        ..TAKEN
    },
    Asked {
        lines: &["help format"],
        printed: "format FILE\n    Makes FILE, which must not exist, as the file of a new log. Prints nothing.\n",
        ..TAKEN
    },
    Asked {
        lines: &["--version", "version", "version --raw"],
        printed: "shards 1.0\nlogs of version 2 (SPNLOG02)\n",
        ..TAKEN
    },
];

const ONCE: Asked = Asked {
    lines: &["once a 1 100 110 112 121"],
    ..REFUSED
};

// After a failed write nothing more is printed, also no fault.
static FAILING: [Asked; 4] = [
    Asked {
        writes: Writes { out: 0, ..AMPLE },
        ..ONCE
    },
    Asked {
        writes: Writes { out: 1, ..AMPLE },
        printed: "commit 1.1 at 111\n",
        ..ONCE
    },
    Asked {
        writes: Writes { out: 2, ..AMPLE },
        printed: "commit 1.1 at 111\ndone 1.1 committed 111\n",
        status: 0,
        ..ONCE
    },
    // It is refused, and nothing says so.
    Asked {
        lines: &["once a 1 110 100 112 121"],
        writes: Writes { err: 0, ..AMPLE },
        ..REFUSED
    },
];

// A body that names a table costs much to prove, so each is handed on.
fn judged() -> &'static [Asked] {
    &JUDGED
}

fn dumped() -> &'static [Asked] {
    &DUMPED
}

fn counted() -> &'static [Asked] {
    &COUNTED
}

fn told() -> &'static [Asked] {
    &TOLD
}

fn renewed() -> &'static [Asked] {
    &RENEWED
}

fn retired() -> &'static [Asked] {
    &RETIRED
}

fn helped() -> &'static [Asked] {
    &HELP
}

fn failing() -> &'static [Asked] {
    &FAILING
}

fn refused_words() -> &'static [Asked] {
    &REFUSED_WORDS
}

fn refused_files() -> &'static [Asked] {
    &REFUSED_FILES
}

/// Goes over the lines of some rows.
pub fn go_over(wrong: &mut WrongRows, alloc: Global, rows: &[Asked]) {
    for row in rows {
        for line in row.lines {
            wrong.unless(comes_to(alloc, &all_files(), line, row), line);
        }
    }
}

/// Goes over what is answered, also over help, and over writes that fail.
pub fn go_over_answers(wrong: &mut WrongRows, alloc: Global) {
    for rows in [
        judged(),
        dumped(),
        counted(),
        told(),
        retired(),
        renewed(),
        helped(),
        failing(),
    ] {
        go_over(wrong, alloc, rows);
    }
}

/// Goes over what is refused.
pub fn go_over_refusals(wrong: &mut WrongRows, alloc: Global) {
    for rows in [refused_words(), refused_files()] {
        go_over(wrong, alloc, rows);
    }
}

/// Tells whether nothing is told of no log. No command line asks for that.
pub fn counts_no_log(alloc: Global) -> bool {
    match stats_files(alloc, &Memory { files: &[] }, &[]) {
        Ok(text) => {
            let nothing = text.is_empty();
            drop(text);
            nothing
        }
        Err(_) => false,
    }
}
