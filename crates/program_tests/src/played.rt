//! What `play` prints of a file.
use crate::given::{Asked, File, PLAY, TAKEN, comes_to};
use made::WrongRows;
use std::alloc::Global;

// A schedule, what is printed to both outputs, and the status.
struct Played {
    name: &'static str,
    schedule: &'static str,
    printed: &'static str,
    refused: &'static str,
    status: u8,
}

// One write at one shard. The first settling comes too early.
const ONE_SHARD: &str = "shards 2
split m
stride 0
100 begin 1.1
100 write 1.1 a 1
100 close 1.1
105 deliver 0 100 110
112 settle 0 1.1 105 112
115 settle 0 1.1 112 121
";

// A write at each of two shards. The number of the outcome's message is 4.
const TWO_SHARDS: &str = "shards 2
split m
stride 0
100 begin 1.2
100 write 1.2 a 1
100 write 1.2 z 2
100 close 1.2
105 deliver 0 100 110
205 deliver 1 200 210
206 deliver 2 200 210
215 settle 0 1.2 201 230
216 deliver 4 210 220
217 look 1 z 200
";

const REFUSED: Played = Played {
    name: "",
    schedule: "",
    printed: "",
    refused: "",
    status: 2,
};

// Schedules without crashes.
static WRITTEN: [Played; 5] = [
    // The timestamp is above the latest end of the reading.
    Played {
        name: "a commit at one shard",
        schedule: ONE_SHARD,
        printed: "event 0 ok
event 1 ok
event 2 ok
put 0 shard 0 commit 1.1 0 0 - a=1
event 3 ok
event 4 refused 13 Early
event 5 ok
put 1 session 1.1 done 1.1 committed 111
log 0
opened 1
commit 1.1 111 0 - a=1
outcome 1.1 committed 111
log 1
opened 1
lines
begin 1.1 0
ack 1.1 111 5
verdict yes
",
        refused: "",
        status: 0,
    },
    // The timestamp is that of the vote.
    Played {
        name: "a commit at two shards",
        schedule: TWO_SHARDS,
        printed: "event 0 ok
event 1 ok
event 2 ok
event 3 ok
put 0 shard 0 commit 1.2 0,1 0 - a=1
put 1 shard 1 prepare 1.2 0 0 - z=2
event 4 ok
event 5 ok
put 2 shard 0 vote 1 1.2 yes 200
event 6 ok
event 7 ok
put 3 session 1.2 done 1.2 committed 200
put 4 shard 1 outcome 0 1.2 committed 200
event 8 ok
event 9 =2
log 0
opened 1
commit 1.2 200 0,1 - a=1
outcome 1.2 committed 200
log 1
opened 1
prepare 1.2 0 200 - z=2
outcome 1.2 committed 200
lines
begin 1.2 0
ack 1.2 200 7
look z 200 =2
verdict yes
",
        refused: "",
        status: 0,
    },
    Played {
        name: "each kind of event of sessions, and of shards that stay up",
        schedule: "shards 2
split m
stride 50
100 begin 1.1
100 read 1.1 z
105 deliver 0 100 110
106 deliver 1 100 110
107 write 1.1 a 5
108 erase 1.1 z
109 close 1.1
110 deliver 3 105 115
111 deliver 2 110 120
112 deliver 4 110 120
113 look 0 a 121
120 nudge 1 1.1 110 120
121 deliver 5 120 130
125 settle 0 1.1 122 130
126 deliver 6 120 130
127 deliver 7 120 130
128 look 1 z 121
165 advance 0 160 160 170
166 view 0 1 a 160
167 view 0 0 a 160
168 begin 1.2
168 read 1.2 a
170 deliver 8 165 175
171 begin 1.3
171 write 1.3 a 6
171 close 1.3
172 deliver 10 170 180
173 quit 1.2
174 deliver 11 170 180
175 resume 0 175 185
190 settle 0 1.3 182 195
191 deliver 9 185 195
",
        printed: "event 0 ok
event 1 ok
put 0 shard 1 read 1.1 z
event 2 ok
put 1 session 1.1 answer 1 1.1 z 1 none
event 3 ok
event 4 ok
event 5 ok
event 6 ok
put 2 shard 0 commit 1.1 0,1 0 - a=5
put 3 shard 1 prepare 1.1 0 1 z z!
event 7 ok
put 4 shard 0 vote 1 1.1 yes 105
event 8 ok
event 9 ok
event 10 refused 9 NotYet
event 11 ok
put 5 shard 0 ask 1 1.1
event 12 ok
event 13 ok
put 6 session 1.1 done 1.1 committed 121
put 7 shard 1 outcome 0 1.1 committed 121
event 14 ok
event 15 ok
event 16 none
event 17 ok
event 18 =5
event 19 refused 9 NotYet
event 20 ok
event 21 ok
put 8 shard 0 read 1.2 a
event 22 ok
put 9 session 1.2 answer 0 1.2 a 1 =5
event 23 ok
event 24 ok
event 25 ok
put 10 shard 0 commit 1.3 0 0 - a=6
event 26 ok
event 27 ok
put 11 shard 0 giveup 1.2
event 28 ok
event 29 ok
event 30 ok
put 12 session 1.3 done 1.3 committed 181
event 31 refused 14 Stranger
log 0
opened 1
commit 1.1 121 0,1 - a=5
outcome 1.1 committed 121
ceiling 210
commit 1.3 181 0 - a=6
outcome 1.3 committed 181
log 1
opened 1
prepare 1.1 0 105 z z!
outcome 1.1 committed 121
lines
begin 1.1 0
read 1.1 z none
ack 1.1 121 13
look z 121 none
look a 160 =5
begin 1.2 20
begin 1.3 23
ack 1.3 181 30
verdict yes
",
        refused: "",
        status: 0,
    },
    Played {
        name: "a horizon",
        schedule: "shards 1
stride 0
100 advance 0 100 100 110
101 forget 0 101 100 110
102 forget 0 90 100 110
103 forget 0 90 100 110
104 look 0 a 89
105 look 0 a 90
106 look 0 a 101
107 view 0 1 a 89
",
        printed: "event 0 ok
event 1 refused 9 NotYet
event 2 ok
event 3 ok
event 4 refused 15 TooOld
event 5 none
event 6 refused 9 NotYet
event 7 none
log 0
opened 1
ceiling 100
horizon 90
lines
look a 90 none
look a 89 none
verdict yes
",
        refused: "",
        status: 0,
    },
    Played {
        name: "a horizon with a reading without the true time",
        schedule: "shards 1\nstride 0\n100 advance 0 100 100 110\n100 forget 0 50 101 110\n",
        refused: "fault: 7 BadRequest(unlawful 1)\n",
        ..REFUSED
    },
];

// Texts that are no schedules, and lists that are not lawful.
static REFUSED_TEXTS: [Played; 8] = [
    Played {
        name: "no events",
        schedule: "shards 1\nstride 0\n",
        printed: "log 0\nopened 1\nlines\nverdict yes\n",
        refused: "",
        status: 0,
    },
    Played {
        name: "an empty file",
        schedule: "",
        refused: "fault: 7 BadRequest(syntax 1)\n",
        ..REFUSED
    },
    Played {
        name: "a number with a leading zero",
        schedule: "shards 1\nstride 0\n100 begin 1.1\n0100 begin 1.2\n",
        refused: "fault: 7 BadRequest(syntax 4)\n",
        ..REFUSED
    },
    Played {
        name: "a reading with its ends exchanged",
        schedule: "shards 1\nstride 0\n100 resume 0 110 100\n",
        refused: "fault: 7 BadRequest(syntax 3)\n",
        ..REFUSED
    },
    Played {
        name: "splits that do not ascend",
        schedule: "shards 3\nsplit m\nsplit m\nstride 0\n",
        refused: "fault: 7 BadRequest(splits)\n",
        ..REFUSED
    },
    Played {
        name: "an id that is begun twice",
        schedule: "shards 1\nstride 0\n100 begin 1.1\n100 begin 1.1\n",
        refused: "fault: 7 BadRequest(unlawful 1)\n",
        ..REFUSED
    },
    Played {
        name: "time that falls",
        schedule: "shards 1\nstride 0\n100 begin 1.1\n100 begin 1.2\n99 begin 1.3\n",
        refused: "fault: 7 BadRequest(unlawful 2)\n",
        ..REFUSED
    },
    Played {
        name: "a reading without the true time",
        schedule: "shards 1\nstride 0\n100 resume 0 101 110\n",
        refused: "fault: 7 BadRequest(unlawful 0)\n",
        ..REFUSED
    },
];

// Schedules with crashes and failing calls, and lists that are not lawful.
static CRASHED: [Played; 5] = [
    Played {
        name: "a crash and an opening",
        schedule: "shards 1\nstride 0\n100 begin 1.1\n101 crash 0\n102 open 0\n",
        printed: "event 0 ok
event 1 crashed
event 2 ok
log 0
opened 1
opened 2
lines
begin 1.1 0
verdict yes
",
        refused: "",
        status: 0,
    },
    Played {
        name: "an opening of a shard that is up",
        schedule: "shards 1\nstride 0\n100 begin 1.1\n101 open 0\n",
        refused: "fault: 7 BadRequest(unlawful 1)\n",
        ..REFUSED
    },
    Played {
        name: "a crash of one shard in an event of another",
        schedule: "shards 2\nsplit m\nstride 0\n100 begin 1.1\n101 crash 0 0 old resume 1 90 110\n",
        refused: "fault: 7 BadRequest(unlawful 1)\n",
        ..REFUSED
    },
    Played {
        name: "each kind of event, with crashes and failing calls",
        schedule: "shards 2
split m
stride 0
100 begin 1.1
100 write 1.1 a 1
100 write 1.1 z 2
100 close 1.1
105 deliver 0 100 110
106 fail 1 0 deliver 1 100 110
107 look 1 z 0
108 resume 1 100 110
109 open 1
205 crash 1 2 new deliver 1 200 210
206 look 1 z 0
206 view 1 0 z 0
207 crash 1 3 37 open 1
208 fail 1 1 open 1
209 open 1
210 look 1 z 199
210 look 1 z 200
211 nudge 1 1.1 205 215
212 deliver 2 205 215
305 deliver 1 300 310
306 deliver 3 300 310
310 crash 0
311 open 0
315 crash 0 4 old settle 0 1.1 310 320
316 open 0
317 deliver 0 310 320
318 deliver 2 310 320
319 fail 1 3 deliver 5 310 320
320 crash 1 0 new resume 1 315 325
321 open 1
322 look 1 z 200
323 fail 0 9 advance 0 330 320 330
324 look 0 a 330
325 deliver 4 320 330
330 begin 1.2
330 erase 1.2 a
330 read 1.2 z
331 deliver 6 330 340
332 deliver 7 330 340
333 close 1.2
334 crash 1
335 open 1
336 deliver 9 330 340
337 deliver 8 330 340
338 deliver 10 330 340
339 quit 1.2
340 deliver 11 330 340
345 advance 1 340 340 350
346 settle 0 1.1 340 350
",
        printed: "event 0 ok
event 1 ok
event 2 ok
event 3 ok
put 0 shard 0 commit 1.1 0,1 0 - a=1
put 1 shard 1 prepare 1.1 0 0 - z=2
event 4 ok
event 5 refused 2 Device
event 6 none
event 7 refused 3 Stopped
event 8 ok
event 9 crashed
event 10 refused 3 Stopped
event 11 none
event 12 crashed
event 13 refused 2 Device
event 14 ok
event 15 none
event 16 refused 9 NotYet
event 17 ok
put 2 shard 0 ask 1 1.1
event 18 ok
event 19 ok
put 3 shard 0 vote 1 1.1 yes 200
event 20 ok
event 21 crashed
event 22 ok
event 23 crashed
event 24 ok
event 25 ok
put 4 session 1.1 done 1.1 committed 200
event 26 ok
put 5 shard 1 outcome 0 1.1 committed 200
event 27 refused 2 Device
event 28 crashed
event 29 ok
event 30 =2
event 31 ok
event 32 =1
event 33 ok
event 34 ok
event 35 ok
event 36 ok
put 6 shard 1 read 1.2 z
event 37 ok
put 7 session 1.2 answer 1 1.2 z 4 =2
event 38 ok
event 39 ok
put 8 shard 0 commit 1.2 0,1 0 - a!
put 9 shard 1 prepare 1.2 0 4 z -
event 40 crashed
event 41 ok
event 42 ok
put 10 shard 0 vote 1 1.2 refused
event 43 ok
event 44 ok
put 11 session 1.2 done 1.2 aborted
put 12 shard 1 outcome 0 1.2 aborted
event 45 ok
put 13 shard 0 giveup 1.2
put 14 shard 1 giveup 1.2
event 46 refused 14 Stranger
event 47 ok
event 48 refused 14 Stranger
log 0
opened 1
commit 1.1 200 0,1 - a=1
opened 2
outcome 1.1 committed 200
opened 3
ceiling 330
abort 1.2
log 1
opened 1
opened 2
prepare 1.1 0 200 - z=2
opened 3
outcome 1.1 committed 200
opened 4
opened 5
ceiling 340
lines
begin 1.1 0
look z 0 none
look z 0 none
look z 199 none
ack 1.1 200 25
look z 200 =2
look a 330 =1
begin 1.2 34
verdict yes
",
        refused: "",
        status: 0,
    },
    Played {
        name: "an event that may not happen, before a crash",
        schedule: "shards 1\nstride 0\n100 begin 1.1\n100 begin 1.1\n101 crash 0 2 fF open 0\n",
        refused: "fault: 7 BadRequest(unlawful 1)\n",
        ..REFUSED
    },
];

// What is said of bytes that are no schedule.
static NO_TEXT: Played = Played {
    name: "bytes that are no text",
    refused: "fault: 7 BadRequest(syntax 1)\n",
    ..REFUSED
};

// A body that names a table costs much to prove, so each is handed on.
fn written() -> &'static [Played] {
    &WRITTEN
}

fn refused_texts() -> &'static [Played] {
    &REFUSED_TEXTS
}

fn crashed() -> &'static [Played] {
    &CRASHED
}

fn no_text() -> &'static Played {
    &NO_TEXT
}

// Whether a file of these bytes is played as the row says.
fn is_played(alloc: Global, bytes: &[u8], row: &Played) -> bool {
    let file = File {
        path: "a.schedule",
        bytes,
    };
    let asked = Asked {
        printed: row.printed,
        refused: row.refused,
        status: row.status,
        ..TAKEN
    };
    comes_to(alloc, &[&[file]], PLAY, &asked)
}

/// Goes over all rows. Each of them is a file that is played.
pub fn go_over(wrong: &mut WrongRows, alloc: Global) {
    for rows in [written(), refused_texts(), crashed()] {
        for row in rows {
            let right = is_played(alloc, row.schedule.as_bytes(), row);
            wrong.unless(right, row.name);
        }
    }
    let row = no_text();
    let right = is_played(alloc, b"shards 1\nstride 0\n100 begin \xff\n", row);
    wrong.unless(right, row.name);
}
