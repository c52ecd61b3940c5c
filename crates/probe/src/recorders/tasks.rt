//! Values of tasks by the names that commands give them.
use anyhow::{Result, bail};
use callbacks::TaskData;
use std::alloc::Global;

/// Values of tasks, each with its name. The place of a value that is taken stays, with its name, for the
/// next value.
#[derive(Drop)]
pub struct Tasks {
    places: Vec<(String, Option<TaskData>)>,
}

impl Tasks {
    /// Returns no values.
    pub fn new(alloc: Global) -> Tasks {
        Tasks {
            places: Vec::new(alloc),
        }
    }

    /// Returns the value of this name, which is no longer kept. Fails where there is none.
    pub fn take(&mut self, name: &str) -> Result<TaskData> {
        if let Some(place) = self.place(name)
            && let Some((_, value)) = self.places.get_mut(place)
            && let Some(task) = value.take()
        {
            return Ok(task);
        }
        bail!("no value has this name")
    }

    /// Keeps a value under this name. Where a value of this name was taken, it needs no memory.
    pub fn put(&mut self, name: &str, task: TaskData) -> Result<()> {
        if let Some(place) = self.place(name)
            && let Some((_, value)) = self.places.get_mut(place)
        {
            *value = Some(task);
            return Ok(());
        }
        let alloc = *self.places.allocator();
        self.places.push((name.to_string(alloc)?, Some(task)))?;
        Ok(())
    }

    /// Returns the values, each at its place; none where it is taken.
    pub fn places(&self) -> &[(String, Option<TaskData>)] {
        self.places.as_slice()
    }

    /// The place of this name.
    fn place(&self, name: &str) -> Option<usize> {
        self.places
            .iter()
            .position(|place| place.0.as_str() == name)
    }
}
