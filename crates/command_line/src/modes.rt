//! The modes of the program.

ghost use Rattle.std.specs.Prelude.{◌≡◌, ◌≤◌};
ghost use Rattle.command_line.specs.Listening as listening_spec;
ghost use Rattle.command_line.specs.Project as project_spec;

use std::marker::Model;

/// What the program does.
#[derive(Clone, Copy, Debug, PartialEq, Eq)]
pub enum Mode {
    /// It answers the script on its standard input, on one thread, and keeps the pages of each
    /// build.
    Clean,
    /// The same, and a page of terms stands behind the pages of each build that has terms.
    Terms,
    /// It writes the script of a project, and reads nothing.
    Gen(Project),
    /// It answers the script on its standard input, each session beside the others, with so many
    /// workers for each build.
    Batch(Workers),
    /// It answers the script of a project as one session, with so many workers for each build, and
    /// writes how much there was; it reads nothing.
    Trial(Project, Workers),
    /// It serves sessions that connect to a port, each connection one session, with so many workers
    /// for each build.
    Serve(Listening, Workers),
}

/// What a project is made of: a number of at most 2^63 - 1, and 2 to 4,000 topics.
#[derive(Clone, Copy, Debug, PartialEq, Eq)]
pub struct Project {
    number: u64,
    topics: u32,
}

impl Model for Project {
    ghost use Rattle.command_line.specs.Project.{ProjectAsked, IsWithinBounds};

    ghost Value = { ProjectAsked };

    ghost view = { λ p. record { number = p.number; topics = p.topics } };

    ghost invariant = { λ p. IsWithinBounds p.number p.topics };

    ghost inverse = { λ asked. record { number = asked.number; topics = asked.topics } };
}

impl Project {
    pub(crate) fn new(number: u64, topics: u32) -> Project
        requires { project_spec.IsWithinBounds number topics }
        ensures number { result.number ≡ number }
        ensures topics { result.topics ≡ topics }
    {
        Project { number, topics }
    }

    pub fn number(&self) -> u64
        ensures { result ≡ self.now.number }
    {
        self.number
    }

    pub fn topics(&self) -> u32
        ensures topics { result ≡ self.now.topics }
        ensures within { project_spec.IsWithinBounds self.now.number self.now.topics }
    {
        self.topics
    }
}

/// How many threads work on one build: 1 to 16.
#[derive(Clone, Copy, Debug, PartialEq, Eq)]
pub struct Workers {
    count: u32,
}

impl Model for Workers {
    ghost use Rattle.std.specs.Prelude.{ℕ};
    ghost use Rattle.command_line.specs.Project.{IsTeam};

    ghost Value = { ℕ };

    ghost view = { λ w. w.count };

    ghost invariant = { λ w. IsTeam w.count };

    ghost inverse = { λ count. record { count = count } };
}

impl Workers {
    pub(crate) fn new(count: u32) -> Workers
        requires { project_spec.IsTeam count }
        ensures { result ≡ count }
    {
        Workers { count }
    }

    /// How many they are, from 1 to 16.
    pub fn count(&self) -> u32
        ensures count { result ≡ self.now }
        ensures within { project_spec.IsTeam self.now }
    {
        self.count
    }
}

/// Where sessions connect, and how many are served: a port of 127.0.0.1, and 1 to 1,024 connections.
/// Port 0 is any free one.
#[derive(Clone, Copy, Debug, PartialEq, Eq)]
pub struct Listening {
    port: u16,
    connections: u32,
}

impl Model for Listening {
    ghost use Rattle.command_line.specs.Listening.{ListeningAsked, IsListening};

    ghost Value = { ListeningAsked };

    ghost view = { λ l. record { port = l.port; connections = l.connections } };

    ghost invariant = { λ l. IsListening l.port l.connections };

    ghost inverse = { λ asked. record { port = asked.port; connections = asked.connections } };
}

impl Listening {
    pub(crate) fn new(port: u16, connections: u32) -> Listening
        requires { listening_spec.IsListening port connections }
        ensures port { result.port ≡ port }
        ensures connections { result.connections ≡ connections }
    {
        Listening { port, connections }
    }

    pub fn port(&self) -> u16
        ensures { result ≡ self.now.port }
    {
        self.port
    }

    pub fn connections(&self) -> u32
        ensures connections { result ≡ self.now.connections }
        ensures within { listening_spec.IsListening self.now.port self.now.connections }
    {
        self.connections
    }
}
