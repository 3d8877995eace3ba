// All marks below the whole group's, from representatives. For speed only: `group_mark` is the plain way to mark one group.
pub mod below;
