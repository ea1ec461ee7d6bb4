// Long paths: at most 64 routers, so a run has at most 394 bytes; a 65th is bad at its offset.

pub const CASES: &[&str] = &[
    // 64 routers, which is allowed.
    "64 routers, IP TTL 65: 01 05 41 80 00 00 00 00R64 04 0f\n\
     64 routers, IP TTL 64: 01 05 40 80 00 00 00 00R64 04 0f\n\
     64 routers, QS TTL 20: 01 05 ff 14 00 00 00 00R64 04 0f\n\
     64 silent routers, IP TTL 65: 01 05 41 80 00 00 00 00S64 04 0f\n\
     64 silent routers, IP TTL 64: 01 05 40 80 00 00 00 00S64 04 0f\n\
     32 routers and 32 silent ones, taking turns: 01 05 ff fe 00 00 00 00B32 04 0f\n",
    // 63 routers that change nothing, and a 64th that decides.
    "the 64th has ceiling 2: 01 05 ff fe 00 00 00 00R63 02 02 ff ff ff fc 04 0f\n\
     the 64th has ceiling 0: 01 05 ff fe 00 00 00 00R63 02 00 ff ff ff fc 04 0f\n\
     the 64th is silent: 01 05 ff fe 00 00 00 00R63 03 04 0f\n\
     the 64th has ceiling 16: 01 05 ff fe 00 00 00 00R63 02 10 ff ff ff fc 04 0f\n\
     the 64th is cut short: 01 05 ff fe 00 00 00 00R63 02 0f 00 00 00\n",
    // A 65th router breaks the format, whatever it is.
    "65 routers: 01 05 ff fe 00 00 00 00R65 04 0f\n\
     65 silent routers: 01 05 ff fe 00 00 00 00S65 04 0f\n\
     64 in turns and a silent one: 01 05 ff fe 00 00 00 00B32 03 04 0f\n\
     64 routers and a silent one: 01 05 ff fe 00 00 00 00R64 03 04 0f\n\
     64 silent routers and a router: 01 05 ff fe 00 00 00 00S64 02 0f 00 00 00 00 04 0f\n\
     65 routers, IP TTL 1: 01 05 01 80 00 00 00 00R65 04 0f\n",
    // A 65th router that has a fault of its own: the same offset.
    "the 65th has ceiling 16: 01 05 ff fe 00 00 00 00S64 02 10 ff ff ff fc 04 0f\n\
     the 65th is cut short: 01 05 ff fe 00 00 00 00S64 02 0f 00\n\
     the 65th, and nothing behind: 01 05 ff fe 00 00 00 00S65\n\
     a request as the 65th: 01 05 ff fe 00 00 00 00S64 01 05 40 80 00 00 00 00 04 0f\n\
     200 silent routers: 01 05 ff fe 00 00 00 00S99S99S02 04 0f\n",
    // The receiver behind 64 routers: the longest run has 394 bytes.
    "longest run: 01 0f ff ff ff ff ff ffR64 04 0f\n\
     longest run and a byte more: 01 0f ff ff ff ff ff ffR64 04 0f 00\n\
     longest run, a byte less: 01 0f ff ff ff ff ff ffR64 04\n\
     64 routers, nothing behind: 01 05 ff fe 00 00 00 00R64\n\
     64 routers, receiver 16: 01 05 ff fe 00 00 00 00R64 04 10\n",
    // Offsets where the number of digits grows.
    "kind 7 at 99: 01 05 ff fe 00 00 00 00R15 03 07\n\
     kind 7 at 100: 01 05 ff fe 00 00 00 00R15 03 03 07\n\
     router 16 at 200: 01 05 ff fe 00 00 00 00R32 02 10 ff ff ff fc 04 0f\n",
];
