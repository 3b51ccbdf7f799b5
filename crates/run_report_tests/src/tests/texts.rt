//! What is printed.

pub const TRACE_OF_ONE: &'static str = "1 look duo 128 128 claimed
1 fill duo 128 128 evict -
1 look dot 128 128 claimed
1 fill dot 128 128 evict duo 128 128
1 look bar 128 128 claimed
1 fill bar 128 128 evict dot 128 128
1 look dot 128 128 claimed
1 fill dot 128 128 evict bar 128 128
1 look bar 128 128 claimed
1 fill bar 128 128 evict dot 128 128
";

pub const TRACE_OF_THREE: &'static str = "1 look duo 128 128 claimed
1 fill duo 128 128 evict -
1 look dot 128 128 claimed
1 fill dot 128 128 evict -
1 look bar 128 128 claimed
1 fill bar 128 128 evict -
1 look dot 128 128 hit
1 look bar 128 128 hit
";

pub const TRACE_OF_ITSELF: &'static str = "1 look loop 128 128 claimed
1 fill loop 128 128 evict -
1 look loop 128 128 hit
1 look loop 128 128 hit
1 look loop 128 128 hit
1 look loop 128 128 hit
1 look loop 128 128 hit
1 look loop 128 128 hit
1 look loop 128 128 hit
1 look loop 128 128 hit
1 look loop 128 128 hit
1 look loop 128 128 hit
";

pub const TRACE_OF_HEAVY: &'static str = "1 look duo 128 128 claimed
1 fill duo 128 128 evict -
1 look dot 128 128 claimed
1 fill dot 128 128 evict -
1 look bar 128 128 claimed
1 fill bar 128 128 evict -
1 look big 128 128 claimed
1 fill big 128 128 evict duo 128 128, dot 128 128, bar 128 128
1 look huge 128 128 claimed
1 fill huge 128 128 not kept
1 look big 128 128 hit
";

pub const SUMMARY_OF_HEAVY: &'static str = "pages 1
looks 6
hits 1
claims 5
busy 0
evictions 3
releases 0
loads 8
black 22
";

pub const SUMMARY_OF_ONE: &'static str = "pages 1
looks 5
hits 0
claims 5
busy 0
evictions 4
releases 0
loads 14
black 22
";

pub const SUMMARY_OF_THREE: &'static str = "pages 1
looks 5
hits 2
claims 3
busy 0
evictions 0
releases 0
loads 8
black 22
";

pub const SUMMARY_OF_PAGES: &'static str = "pages 3
looks 54
hits 51
claims 3
busy 0
evictions 0
releases 0
loads 8
black 372
";

pub const SUMMARY_OF_EACH: &'static str = "pages 18446744073709551615
looks 12
hits 5
claims 4
busy 3
evictions 1
releases 2
loads 340282366920938463463374607431768211455
black 0
";

pub const SUMMARY_OF_NONE: &'static str = "pages 0
looks 0
hits 0
claims 0
busy 0
evictions 0
releases 0
loads 0
black 18446744073709551615
";
