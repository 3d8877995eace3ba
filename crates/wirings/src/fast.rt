// A lower bound on a group's layers, which ends its search early. For speed only.
pub mod floors;
