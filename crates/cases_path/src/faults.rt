// Inputs that are no run: `bad` and the offset of the first record that breaks the format. A record cut short counts
// at its kind, a missing one at the input's length.

pub const CASES: &[&str] = &[
    // The first record is missing or of another kind.
    "empty input:\n\
     a router first: 02 03 ff ff ff fc 04 0f\n\
     a silent router first: 03 01 05 40 80 00 00 00 00 04 0f\n\
     a receiver first: 04 0f 01 05 40 80 00 00 00 00 04 0f\n\
     kind 0 first: 00 01 05 40 80 00 00 00 00 02 03 ff ff ff fc 04 0f\n\
     kind 255 first: ff 05 40 80 00 00 00 00 02 03 ff ff ff fc 04 0f\n",
    // The input ends in the request.
    "request, 1 of 8 bytes: 01\n\
     request, 2 of 8 bytes: 01 05\n\
     request, 3 of 8 bytes: 01 05 40\n\
     request, 4 of 8 bytes: 01 05 40 80\n\
     request, 5 of 8 bytes: 01 05 40 80 00\n\
     request, 6 of 8 bytes: 01 05 40 80 00 00\n\
     request, 7 of 8 bytes: 01 05 40 80 00 00 00\n",
    // A code outside 1 to 15, or IP TTL 0.
    "code 0: 01 00 40 80 00 00 00 00 04 0f\n\
     code 16: 01 10 40 80 00 00 00 00 04 0f\n\
     code 255: 01 ff 40 80 00 00 00 00 04 0f\n\
     code 5 with a high half: 01 15 40 80 00 00 00 00 04 0f\n\
     IP TTL 0: 01 05 00 80 00 00 00 00 04 0f\n\
     IP TTL 0, one router: 01 05 00 80 00 00 00 00 02 0f 00 00 00 00 04 0f\n\
     code 0, cut short: 01 00 40 80\n",
    // What stands behind the request is missing or of another kind.
    "only a request: 01 05 40 80 00 00 00 00\n\
     a second request: 01 05 40 80 00 00 00 00 01 05 40 80 00 00 00 00 04 0f\n\
     kind 5 behind the request: 01 05 40 80 00 00 00 00 05 04 0f\n\
     kind 4 with a high half: 01 05 40 80 00 00 00 00 14 0f\n",
    // The input ends in a router's record.
    "router, 1 of 6 bytes: 01 05 40 80 00 00 00 00 02\n\
     router, 2 of 6 bytes: 01 05 40 80 00 00 00 00 02 03\n\
     router, 3 of 6 bytes: 01 05 40 80 00 00 00 00 02 03 ff\n\
     router, 4 of 6 bytes: 01 05 40 80 00 00 00 00 02 03 ff ff\n\
     router, 5 of 6 bytes: 01 05 40 80 00 00 00 00 02 03 ff ff ff\n\
     second router, 5 of 6 bytes: 01 05 40 80 00 00 00 00 02 03 ff ff ff fc 02 03 ff ff ff\n",
    // A router's ceiling above 15.
    "router 16: 01 05 40 80 00 00 00 00 02 10 ff ff ff fc 04 0f\n\
     router 3 with a high half: 01 05 40 80 00 00 00 00 02 13 ff ff ff fc 04 0f\n\
     router 16, cut short: 01 05 40 80 00 00 00 00 02 10\n\
     second router 16: 01 05 40 80 00 00 00 00 02 03 ff ff ff fc 02 10 ff ff ff fc 04 0f\n",
    // Another kind, or nothing, behind a router.
    "nothing behind a router: 01 05 40 80 00 00 00 00 02 03 ff ff ff fc\n\
     nothing behind a silent router: 01 05 40 80 00 00 00 00 03\n\
     a request behind a router: 01 05 40 80 00 00 00 00 02 03 ff ff ff fc 01 05 40 80 00 00 00 00 04 0f\n\
     kind 0 behind a router: 01 05 40 80 00 00 00 00 02 03 ff ff ff fc 00 04 0f\n\
     kind 5 between two routers: 01 05 40 80 00 00 00 00 02 03 ff ff ff fc 05 02 03 ff ff ff fc 04 0f\n\
     kind 255 behind a router: 01 05 40 80 00 00 00 00 02 03 ff ff ff fc ff 04 0f\n\
     a silent router with a body: 01 05 40 80 00 00 00 00 03 0f ff ff ff fc 04 0f\n\
     a silent router with a body of kinds: 01 05 40 80 00 00 00 00 03 04 0f ff ff fc 04 0f\n\
     two silent routers and kind 6: 01 05 40 80 00 00 00 00 03 03 06\n",
    // A receiver's record cut short or out of range.
    "receiver, 1 of 2 bytes: 01 05 40 80 00 00 00 00 04\n\
     receiver 16: 01 05 40 80 00 00 00 00 04 10\n\
     receiver 16 behind a router: 01 05 40 80 00 00 00 00 02 03 ff ff ff fc 04 10\n",
    // Anything behind the receiver's record.
    "a byte 0 behind the receiver: 01 05 40 80 00 00 00 00 04 0f 00\n\
     a newline behind the receiver: 01 05 40 80 00 00 00 00 04 0f 0a\n\
     a second receiver: 01 05 40 80 00 00 00 00 04 0f 04 0f\n\
     a router behind the receiver: 01 05 40 80 00 00 00 00 04 0f 02 03 ff ff ff fc\n\
     a silent router behind the receiver: 01 05 40 80 00 00 00 00 04 0f 03\n\
     a second run: 01 05 40 80 00 00 00 00 02 03 ff ff ff fc 04 0f 01 05 40 80 00 00 00 00 02 03 ff ff ff fc 04 0f\n",
    // Bad wins over every verdict of the path that was read before it.
    "lost, and a byte more: 01 05 01 80 00 00 00 00 02 0f 00 00 00 00 04 0f 00\n\
     lost, and nothing behind: 01 05 01 80 00 00 00 00 02 0f 00 00 00 00 02 0f 00 00 00 00\n\
     router 0, and kind 9: 01 05 40 80 00 00 00 00 02 00 ff ff ff fc 09\n\
     silent, and receiver 16: 01 05 40 80 00 00 00 00 03 04 10\n",
];
