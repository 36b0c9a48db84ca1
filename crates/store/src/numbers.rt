// The numbers in the store's rows (LANGUAGE 4.2, 4.3). The store is lent memory, so its rows keep them: `store.rt` alone
// reads and writes them.

// The states (LANGUAGE 4.2).
pub const CLOSED: u32 = 0;

pub const OPEN: u32 = 1;

pub const GIVEN_BACK: u32 = 2;

// The value kinds (LANGUAGE 4.3).
pub const EMPTY: u32 = 0;

pub const NUMBER: u32 = 1;

pub const OWNER: u32 = 2;

pub const REFERENCE: u32 = 3;
